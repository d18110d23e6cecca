// A desk's session as five numbers that a caller from another language lends, and what the caller hears of a desk: a
// number, the lent numbers and the session's numbers after the call. Rests on the crates `types`, `desk`, `codes`,
// `verdicts` and `telling`.
#![tactic(auto)]

ghost use Rattle.std.specs.Prelude.{◌≡◌, [], ◌∷◌};
ghost use Rattle.desk.specs.Replies.{of_open, of_read_step, of_write_step, of_commit_step};
ghost use Rattle.sessions.specs.Sessions.{setting_of, session_of, with_interval, session_numbers};
ghost use Rattle.sessions.specs.Sessions.{TellsOpening, TellsAfter};

use desk::{Session, Setting, Step};
use types::{Found, Handle, Point, Refusal};

// How many numbers a session is: its handle, the two ends of its interval, the width and the setting.
pub const WORDS: usize = 5;

// The number of a read that left nothing of the interval: above those of the refusals, below that of `nopoint`.
// Kept: a number that the C header names.
const EMPTIED: u64 = 30;

// The setting by a number: 0 names the earliest point, any other number the latest.
// Kept: a flag is a number of the C interface; `desk` knows nothing of C.
pub fn setting(latest: u64) -> Setting
    ensures { result ≡ setting_of latest }
{
    codes::flag(latest, Setting::Earliest, Setting::Latest)
}

// Every five numbers are a session.
// Kept: C lends a session as five numbers; neither they nor `Session` are of this crate, so that there is no `From`.
#[tactic(auto, unfolding(crate::specs::Sessions::session_of))]
pub fn session_of(numbers: &[u64; WORDS]) -> Session
    ensures { result ≡ session_of numbers.now }
{
    let [handle, low, high, width, latest] = *numbers;
    Session {
        handle: Handle::from(handle),
        low: Point::from(low),
        high: Point::from(high),
        width,
        setting: setting(latest),
    }
}

// The reply of a call, and the interval after it put among the numbers; the others stay.
#[tactic(auto, unfolding(crate::specs::Sessions::with_interval))]
fn after<R: Copy>(step: Step<R>, numbers: &mut [u64; WORDS]) -> R
    ensures { (result ≡ step.reply) × (numbers.new ≡ with_interval numbers.old step.session) }
{
    let Step { session: s, reply } = step;
    let [handle, _, _, width, latest] = *numbers;
    *numbers = [handle, u64::from(s.low), u64::from(s.high), width, latest];
    reply
}

// A session put among the numbers.
// Kept: C lends a session as five numbers; a `From` has no place here, as at `session_of`.
#[tactic(auto, unfolding(crate::specs::Sessions::session_numbers))]
fn put_session(s: Session, numbers: &mut [u64; WORDS])
    ensures { numbers.new ≡ session_numbers s }
{
    let latest = match s.setting {
        Setting::Earliest => 0,
        Setting::Latest => 1,
    };
    *numbers = [
        u64::from(s.handle),
        u64::from(s.low),
        u64::from(s.high),
        s.width,
        latest,
    ];
}

// What opening, read, write and commit answered.
// Kept: C hears a session by its five numbers, and a refusal by its number, 0 for none.
pub fn open(r: Result<Session, Refusal>, numbers: &mut [u64; WORDS]) -> u64
    ensures { TellsOpening (of_open r) result numbers.old numbers.new }
{
    match r {
        Ok(s) => {
            put_session(s, numbers);
            0
        }
        Err(no) => codes::refusal(no),
    }
}

// Kept: C hears a number, the session's numbers and each value at a pointer of its own.
pub fn read(
    step: Step<Result<Option<Found>, Refusal>>,
    numbers: &mut [u64; WORDS],
    kind: &mut u64,
    tr: &mut u64,
    end: &mut u64,
    written: &mut u64,
    value: &mut u64,
) -> u64
    ensures { TellsAfter (of_read_step step) result
        (kind.old ∷ tr.old ∷ end.old ∷ written.old ∷ value.old ∷ [])
        (kind.new ∷ tr.new ∷ end.new ∷ written.new ∷ value.new ∷ [])
        numbers.old numbers.new }
{
    match after(step, numbers) {
        Ok(Some(f)) => telling::read(Ok(f), kind, tr, end, written, value),
        Ok(None) => EMPTIED,
        Err(no) => codes::refusal(no),
    }
}

// Kept: as `read`; the three share `after`, and each tells another kind of reply at other pointers.
pub fn write(step: Step<Result<(), Refusal>>, numbers: &mut [u64; WORDS]) -> u64
    ensures { TellsAfter (of_write_step step) result [] [] numbers.old numbers.new }
{
    verdicts::done(after(step, numbers))
}

// Kept: as `write`.
pub fn commit(
    step: Step<Result<Option<Point>, Refusal>>,
    numbers: &mut [u64; WORDS],
    point: &mut u64,
) -> u64
    ensures { TellsAfter (of_commit_step step) result
        (point.old ∷ []) (point.new ∷ [])
        numbers.old numbers.new }
{
    telling::commit(after(step, numbers), point)
}
