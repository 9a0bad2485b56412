// The exports of kihavute_reports::runs.
ghost use Rattle.path_stored.specs.Buffers.{before};
ghost use Rattle.kihavute_reports.specs.Runs.{OrderedGiven, RunGiven};

// The segment reached after each second, and its raw parameter, each from its buffer's start; on a path without segments 4294967295 and 0.
// Gives how many seconds there are. Where answer is too short, or the call is refused, no buffer is touched.
#[unsafe(no_mangle)]
pub extern "C" fn kihavute_dry_run(
    kinds: &[u8],
    fields: &[f32],
    tables: &[f32],
    lengths: &[f32],
    commands: &[u32],
    speeds: &[u32],
    segments: &mut [u32],
    raws: &mut [f32],
    answer: &mut [u64],
) -> u32
    ensures run_given { RunGiven (before kinds fields tables lengths commands) speeds.now segments.old raws.old answer.old
        result segments.new raws.new answer.new }
    ensures ordered_given { OrderedGiven (before kinds fields tables lengths commands) speeds.now segments.old raws.old answer.old
        segments.new raws.new }
{
    kihavute_reports::runs::kihavute_dry_run(
        kinds, fields, tables, lengths, commands, speeds, segments, raws, answer,
    )
}
