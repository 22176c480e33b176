//! What is on the screen of an element.

ghost use Rattle.std.specs.Prelude.{◌≡◌, ◌≤ℤ◌, true, pos, neg_ℤ};
ghost use Rattle.smil_model.specs.diary.Lawful.{has_element};
ghost use Rattle.smil_house.specs.Screen as screen;
ghost use Rattle.smil_past.specs.Past.{IsPresent, history_of};
ghost use Rattle.smil_past.specs.Played.{played as kept_of};

use smil_house::{OnScreen, Showing};
use smil_model::{State, View};
use smil_past::{Past, PlayFacts};

/// What is on the screen of an element at the present moment, by its view. It takes no memory.
pub fn on_screen(past: &Past, now: i64, view: &View) -> OnScreen
    requires element { has_element past.now.document.nodes view.now.serial ≡ true }
    requires moment { IsPresent past.now now }
    ensures { result ≡ screen.on_screen (history_of past.now) now view.now }
{
    let serial = view.serial;
    OnScreen {
        serial,
        showing: showing(past.clocks().stands(serial), view.state),
        position: position(past, now, view),
        iteration: view.iteration,
    }
}

// How an element is on the screen, by whether its clock stands.
fn showing(standing: bool, state: State) -> Showing
    ensures { result ≡ screen.showing_by standing state }
{
    match state {
        State::Active | State::Paused if standing => Showing::Standing,
        State::Active | State::Paused => Showing::Playing,
        State::Frozen => Showing::Frozen,
        _ => Showing::Off,
    }
}

// Where the media of an element is.
fn position(past: &Past, now: i64, view: &View) -> i128
    requires element { has_element past.now.document.nodes view.now.serial ≡ true }
    requires moment { IsPresent past.now now }
    ensures { result
        ≡ screen.position_by (history_of past.now) view.now.serial now view.now.state }
{
    match view.state {
        State::Active | State::Paused => since_iteration(past, now, view.serial),
        State::Frozen => {
            since_iteration(past, now, view.serial) - since_finish(past, now, view.serial)
        }
        _ => 0,
    }
}

// What the element's own clock has shown since the begin of its last iteration.
fn since_iteration(past: &Past, now: i64, who: u32) -> i128
    requires element { has_element past.now.document.nodes who ≡ true }
    requires moment { IsPresent past.now now }
    ensures value { result ≡ screen.since_iteration (history_of past.now) who now }
    ensures low { neg_ℤ (pos 20000000000000000000) ≤ℤ result }
    ensures high { result ≤ℤ pos 20000000000000000000 }
{
    i128::from(past.clocks().run(who, now)) - i128::from(played_of(past, who).start)
}

// What the clock of its time parent has shown since its last interval finished.
fn since_finish(past: &Past, now: i64, who: u32) -> i128
    requires element { has_element past.now.document.nodes who ≡ true }
    requires moment { IsPresent past.now now }
    ensures value { result ≡ screen.since_finish (history_of past.now) who now }
    ensures low { neg_ℤ (pos 20000000000000000000) ≤ℤ result }
    ensures high { result ≤ℤ pos 20000000000000000000 }
{
    match played_of(past, who).last_finished {
        Some(last) => i128::from(past.clocks().outer(who, now)) - i128::from(last.finish),
        None => 0,
    }
}

// What is kept of the plays of an element.
fn played_of(past: &Past, who: u32) -> &PlayFacts
    requires { has_element past.now.document.nodes who ≡ true }
    ensures { result.now ≡ kept_of (history_of past.now) who }
{
    past.plays().of(who).unwrap()
}
