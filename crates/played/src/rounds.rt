// Rounds of a Value, a Mark and a Close of that position.
ghost use Rattle.std.specs.Prelude.{◌+◌, ◌<◌, ◌^◌};
ghost use Rattle.played.specs.Rounds.{Rounded};

use following::Progress;
use history::Session;

// A round more.
fn round(progress: Progress<Session>, area: &mut [u64], v: i32) -> Progress<Session>
    requires { progress.read + 3 < 2 ^ 64 }
    ensures { Rounded progress v area.old area.new result }
{
    let valued = engine::value(progress.session, area, v);
    let marked = engine::mark(valued.session, area);
    let closed = engine::close(marked.session, area, marked.session.present);
    progress.after(valued).after(marked).after(closed)
}

// As many rounds as `turns` says, all of one value.
pub fn play(start: Session, area: &mut [u64], v: i32, turns: u32) -> Progress<Session> {
    let mut progress = Progress::new(start);
    for _i in 0..turns {
        progress = round(progress, area, v);
    }
    progress
}
