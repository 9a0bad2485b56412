// The exports of kihavute_paths::batches.
ghost use Rattle.path_stored.specs.Buffers.{before};
ghost use Rattle.kihavute_paths.specs.Batches.{FlightsGiven, OrderedFlownGiven, OrderedGiven, PlacesGiven};

// The segment at each progress, and its raw parameter, each from its buffer's start; on a path without segments 4294967295 and 0. Gives
// how many progresses there are. Where answer is too short, or the call is refused, no buffer is touched.
#[unsafe(no_mangle)]
pub extern "C" fn kihavute_places(
    kinds: &[u8],
    fields: &[f32],
    tables: &[f32],
    lengths: &[f32],
    commands: &[u32],
    progresses: &[f32],
    segments: &mut [u32],
    raws: &mut [f32],
    answer: &mut [u64],
) -> u32
    ensures places_given { PlacesGiven (before kinds fields tables lengths commands) progresses.now segments.old raws.old answer.old
        result segments.new raws.new answer.new }
    ensures ordered_given { OrderedGiven (before kinds fields tables lengths commands) progresses.now segments.old raws.old answer.old
        segments.new raws.new }
{
    kihavute_paths::batches::kihavute_places(
        kinds, fields, tables, lengths, commands, progresses, segments, raws, answer,
    )
}

// The same, and x, y and the heading's x, y at each progress, from the third buffer's start; on a path without segments those are 0.
#[unsafe(no_mangle)]
pub extern "C" fn kihavute_flights(
    kinds: &[u8],
    fields: &[f32],
    tables: &[f32],
    lengths: &[f32],
    commands: &[u32],
    progresses: &[f32],
    segments: &mut [u32],
    raws: &mut [f32],
    out: &mut [f32],
    answer: &mut [u64],
) -> u32
    ensures flights_given { FlightsGiven (before kinds fields tables lengths commands) progresses.now segments.old raws.old out.old answer.old
        result segments.new raws.new out.new answer.new }
    ensures ordered_flown_given { OrderedFlownGiven (before kinds fields tables lengths commands) progresses.now segments.old raws.old out.old answer.old
        segments.new raws.new out.new }
{
    kihavute_paths::batches::kihavute_flights(
        kinds, fields, tables, lengths, commands, progresses, segments, raws, out, answer,
    )
}
