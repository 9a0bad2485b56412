// The exports of kihavute_paths::queries.
ghost use Rattle.flight.specs.Flights.{flight_given};
ghost use Rattle.path_stored.specs.Buffers.{before};
ghost use Rattle.path_query.specs.Answered.{flew_of, turned_of};
ghost use Rattle.path_query.specs.Ordered.{OrderedBy};
ghost use Rattle.c_answer.specs.Given.{Given};
ghost use Rattle.c_answer.specs.Places.{turn_given};
ghost use Rattle.kihavute_paths.specs.Received.{ReceivedBy};

// What is flown at a progress: position and tangent as bits, the segment, and the raw parameter as bits. Without a segment all are 0 but the
// segment, which is 4294967295.
#[unsafe(no_mangle)]
pub extern "C" fn kihavute_flight(
    kinds: &[u8],
    fields: &[f32],
    tables: &[f32],
    lengths: &[f32],
    commands: &[u32],
    progress: f32,
    answer: &mut [u64],
) -> u32
    ensures given { Given (flight_given (flew_of (before kinds fields tables lengths commands) progress)) answer.old result answer.new }
    ensures ordered_by { OrderedBy (flew_of (before kinds fields tables lengths commands) progress) (before kinds fields tables lengths commands) }
    ensures received_by { ReceivedBy (before kinds fields tables lengths commands) progress result answer.new }
{
    kihavute_paths::queries::kihavute_flight(
        kinds, fields, tables, lengths, commands, progress, answer,
    )
}

// The bits of the heading at a progress, in degrees from the x axis towards the y axis.
#[unsafe(no_mangle)]
pub extern "C" fn kihavute_rotation(
    kinds: &[u8],
    fields: &[f32],
    tables: &[f32],
    lengths: &[f32],
    commands: &[u32],
    progress: f32,
    answer: &mut [u64],
) -> u32
    ensures { Given (turn_given (turned_of (before kinds fields tables lengths commands) progress)) answer.old result answer.new }
{
    kihavute_paths::queries::kihavute_rotation(
        kinds, fields, tables, lengths, commands, progress, answer,
    )
}
