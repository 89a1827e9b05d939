// Windows: the minutes of the day in which a file may change.
#![tactic(auto)]

ghost use Rattle.std.specs.Prelude.{◌≡◌};
ghost use Rattle.windows.specs.Windows.{minute_in, is_open_at};

use limits::LAST_MINUTE;

// The window of a file: from minute start on, before minute end. A start above the end runs over midnight;
// equal ones mean always open (R-11.1).
#[derive(Clone, Copy)]
pub struct Window {
    pub start: u16,
    pub end: u16,
}

// Whether the number is a minute of the day.
#[tactic(auto, unfolding(crate::specs::Windows::minute_in))]
pub fn minute_in(n: usize) -> bool
    ensures { result ≡ minute_in n }
{
    n <= usize::from(LAST_MINUTE)
}

// Whether the minute lies in the window. An equal start and end need no test of their own: every minute is at
// that one or later, or before it.
#[tactic(auto, using(crate::proofs::WindowLaws::by_day, crate::proofs::WindowLaws::by_night))]
pub fn is_open(w: Window, minute: u16) -> bool
    ensures { result ≡ is_open_at w minute }
{
    let from = w.start <= minute;
    let before = minute < w.end;
    if w.start < w.end {
        from & before
    } else {
        from | before
    }
}
