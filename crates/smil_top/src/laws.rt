//! Laws over transcripts. A function here has no code: its contract is the law.

ghost use Rattle.smil_top.specs.Laws.{TranscriptsAreTold, WhatIsToldIsTranscript};
ghost use Rattle.smil_top.specs.Laws.{ItRunsOutAtNone, TextIsOfAnswers};
ghost use Rattle.smil_top.specs.Laws.{MemorySuffices, HasTranscript, HasOneTranscript};
ghost use Rattle.smil_top.specs.Laws.{IsOfOneName, OthersStay, PresentationsStay, AnswersAreOwn};
ghost use Rattle.smil_top.specs.Laws.{PreferringIsOfNone, HeldStay, PreferencesStay};
ghost use Rattle.smil_top.specs.Laws.{NamesAreIsolated, NumbersAreAside, OrdersAreCutAgain};
ghost use Rattle.smil_top.specs.Laws.{InputsAreIsolated, InputsAreCut, TranscriptsHaveFronts};
ghost use Rattle.smil_top.specs.GivenLoads.{GivenLoadsAreLines};
ghost use Rattle.smil_top.specs.Held.{HeldIsServed, ServedIsHeld};
ghost use Rattle.smil_top.specs.Laws.{TranscriptsAreCut, AllTranscriptsAreCut, TranscriptsMigrate};

/// A transcript of orders is what they are told where memory runs out at some of them, at none or
/// at all: at which ones it does determines each answer.
pub fn transcripts_are_told()
    ensures told { TranscriptsAreTold }
    ensures each { WhatIsToldIsTranscript }
    ensures none { ItRunsOutAtNone }
    ensures text { TextIsOfAnswers }
{}

/// Orders have exactly one transcript in which memory suffices.
pub fn orders_have_one_transcript()
    ensures never { MemorySuffices }
    ensures some { HasTranscript }
    ensures one { HasOneTranscript }
{}

/// An order leaves every presentation that has another name than its own.
pub fn others_stay()
    ensures one { IsOfOneName }
    ensures stay { OthersStay }
    ensures presentations { PresentationsStay }
{}

/// An order of a name is answered by what the session has of this name, unless it is refused since
/// too many presentations are held.
pub fn answers_are_own()
    ensures { AnswersAreOwn }
{}

/// A line that prefers a value is of no name and leaves every presentation, and only such a line
/// changes what is preferred.
pub fn preferences_are_apart()
    ensures none { PreferringIsOfNone }
    ensures held { HeldStay }
    ensures preferred { PreferencesStay }
{}

/// The answers to the orders of a name are those of a session with these orders and the lines that
/// prefer a value alone, where no order is refused since too many presentations are held.
pub fn names_are_isolated()
    ensures { NamesAreIsolated }
{}

/// Orders with other line numbers have the same answers, these numbers aside.
pub fn numbers_are_aside()
    ensures { NumbersAreAside }
{}

/// Some of the orders of an input are those of the input that has their lines alone, with other
/// line numbers.
pub fn orders_are_cut_again()
    ensures { OrdersAreCutAgain }
{}

/// The answers to the orders of a name are those of the input that has the lines of these orders
/// and those that prefer a value alone, line numbers aside, where memory suffices and no order is
/// refused since too many presentations are held.
pub fn inputs_are_isolated()
    ensures { InputsAreIsolated }
{}

/// A part of an input from its front has the first orders of the whole input, and at most one order
/// more.
pub fn inputs_are_cut()
    ensures { InputsAreCut }
{}

/// The transcript of a part of an input from its front is a front of the whole one, and the answer
/// of at most one order more.
pub fn transcripts_are_cut()
    ensures fronts { TranscriptsHaveFronts }
    ensures cut { TranscriptsAreCut }
    ensures all { AllTranscriptsAreCut }
{}

/// A transcript in which nothing is refused for a limit is one within larger limits.
pub fn transcripts_migrate()
    ensures { TranscriptsMigrate }
{}

/// What a session that a host holds is told of its lines is what `serve` writes of an input of
/// these lines, where memory suffices.
pub fn held_sessions_are_served()
    ensures whole { HeldIsServed }
    ensures same { ServedIsHeld }
{}

/// A load that is given by a call is what its lines are cut into.
pub fn given_loads_are_lines()
    ensures { GivenLoadsAreLines }
{}
