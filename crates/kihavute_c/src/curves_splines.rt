// The exports of kihavute_curves::splines.
ghost use Rattle.spline_query.specs.Queries.{spline_flown_of, spline_turned_of, spline_measured_of};
ghost use Rattle.spline_query.specs.Ordered.{SplineOrdered};
ghost use Rattle.c_answer.specs.Given.{Given};
ghost use Rattle.flight.specs.Flights.{flight_given};
ghost use Rattle.c_answer.specs.Places.{turn_given};
ghost use Rattle.kihavute_curves.specs.Splines.{SplineTableGiven, measure_given};
ghost use Rattle.kihavute_curves.specs.Received.{SplineReceivedBy};

// Stores the running lengths of the spline through these points from the start of the table, and gives their count. A short
// answer is judged first, and then nothing is stored.
#[unsafe(no_mangle)]
pub extern "C" fn kihavute_spline_table(
    points: &[f32],
    table: &mut [f32],
    answer: &mut [u64],
) -> u32
    ensures { SplineTableGiven points.now table.old answer.old result table.new answer.new }
{
    kihavute_curves::splines::kihavute_spline_table(points, table, answer)
}

// What is flown at a progress along a spline: position and tangent as bits, the segment 0, the raw parameter as bits.
#[unsafe(no_mangle)]
pub extern "C" fn kihavute_spline_flight(
    points: &[f32],
    table: &[f32],
    progress: f32,
    answer: &mut [u64],
) -> u32
    ensures given { Given (flight_given (spline_flown_of points.now table.now progress)) answer.old result answer.new }
    ensures spline_ordered { SplineOrdered (spline_flown_of points.now table.now progress) points.now table.now }
    ensures spline_received_by { SplineReceivedBy points.now table.now progress result answer.new }
{
    kihavute_curves::splines::kihavute_spline_flight(points, table, progress, answer)
}

// Where a spline heads at a progress, in degrees.
#[unsafe(no_mangle)]
pub extern "C" fn kihavute_spline_rotation_deg(
    points: &[f32],
    table: &[f32],
    progress: f32,
    answer: &mut [u64],
) -> u32
    ensures { Given (turn_given (spline_turned_of points.now table.now progress)) answer.old result answer.new }
{
    kihavute_curves::splines::kihavute_spline_rotation_deg(points, table, progress, answer)
}

// How long a spline is: its bits, as those of a heading.
#[unsafe(no_mangle)]
pub extern "C" fn kihavute_spline_length(points: &[f32], table: &[f32], answer: &mut [u64]) -> u32
    ensures { Given (measure_given (spline_measured_of points.now table.now)) answer.old result answer.new }
{
    kihavute_curves::splines::kihavute_spline_length(points, table, answer)
}
