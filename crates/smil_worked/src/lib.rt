//! Worked presentations, computed from the definitions. A function here has no code: its contract
//! is what the presentation shows.
#![tactic(auto)]

ghost use Rattle.smil_worked.specs.OneImage.{OneImage};
ghost use Rattle.smil_worked.specs.LengthZero.{LengthZero};
ghost use Rattle.smil_worked.specs.PingPong.{PingPong};
ghost use Rattle.smil_worked.specs.NeitherBegins.{NeitherBegins};
ghost use Rattle.smil_worked.specs.SelfReference.{SelfReference};
ghost use Rattle.smil_worked.specs.ForeseenBegin.{ForeseenBegin};
ghost use Rattle.smil_worked.specs.LoopedByEdit.{LoopedByEdit};
ghost use Rattle.smil_worked.specs.CatchingUp.{CatchingUp};
ghost use Rattle.smil_worked.specs.FractionOfRepeat.{FractionOfRepeat};
ghost use Rattle.smil_worked.specs.MinAndMax.{MinAndMax};
ghost use Rattle.smil_worked.specs.ForgottenEvent.{ForgottenEvent};
ghost use Rattle.smil_worked.specs.FreezeInSeq.{FreezeInSeq};
ghost use Rattle.smil_worked.specs.QuietEdit.{QuietEdit};
ghost use Rattle.smil_worked.specs.Reaches.{Edits, Reaches};

/// A par with one image.
pub fn one_image()
    ensures { OneImage }
{}

/// Elements of length 0: they begin and end at one moment, containers after their children.
pub fn length_zero()
    ensures { LengthZero }
{}

/// Two elements that begin at each other's ends take turns.
pub fn ping_pong()
    ensures { PingPong }
{}

/// Two elements that each wait for the begin of the other never begin.
pub fn neither_begins()
    ensures { NeitherBegins }
{}

/// An element that begins at its own end plays once where its length is 0.
pub fn self_reference()
    ensures { SelfReference }
{}

/// A begin that leads its base moves into the past when the base ends early.
pub fn foreseen_begin()
    ensures { ForeseenBegin }
{}

/// An edit makes a reference looped, so that its times are gone.
pub fn looped_by_edit()
    ensures { LoopedByEdit }
{}

/// An element that began long before its parent is in its last iteration at once.
pub fn catching_up()
    ensures { CatchingUp }
{}

/// A fraction of a repeat, and a repeat that ties with the end.
pub fn fraction_of_repeat()
    ensures { FractionOfRepeat }
{}

/// Where `max` is less than `min` both are absent; `min` prolongs an early end.
pub fn min_and_max()
    ensures { MinAndMax }
{}

/// A repeat of the parent forgets the events that its children heard.
pub fn forgotten_event()
    ensures { ForgottenEvent }
{}

/// Freeze and hold in a seq.
pub fn freeze_in_seq()
    ensures { FreezeInSeq }
{}

/// Which elements an entry on an element of two branches can concern.
pub fn reaches()
    ensures { Reaches }
{}

/// Where a new node stands, and what a removed one takes along.
pub fn edits()
    ensures { Edits }
{}

/// The begin of the image of a par is moved: an edit that leaves references as they are.
pub fn quiet_edit()
    ensures { QuietEdit }
{}
