// One state, in one place, lent four times.
ghost use Rattle.std.specs.Prelude.{◌≡◌};
ghost use Rattle.in_place_cases.specs.Drive.{whole, course_of};

use in_place::Told;
use switcher::{Stepped, Switcher};

// What each call told, with the state that it left.
#[derive(Clone, Copy)]
pub struct Course {
    pub ticked: Stepped,
    pub saved: Stepped,
    pub swapped: Stepped,
    pub resumed: Stepped,
}

fn whole(told: Told, left: Switcher) -> Stepped
    ensures { result ≡ whole told left }
{
    Stepped {
        state: left,
        done: told.done,
        verdict: told.verdict,
    }
}

// The calls of a switch, whatever each of them answers.
pub fn driven(from: Switcher, t: u32) -> Course
    ensures { result ≡ course_of from t }
{
    let mut lent = from;
    let told = in_place::tick(&mut lent, t);
    let ticked = whole(told, lent);
    let told = in_place::mark_saved(&mut lent);
    let saved = whole(told, lent);
    let told = in_place::mark_swapped(&mut lent);
    let swapped = whole(told, lent);
    let told = in_place::mark_resumed(&mut lent);
    let resumed = whole(told, lent);
    Course {
        ticked,
        saved,
        swapped,
        resumed,
    }
}
