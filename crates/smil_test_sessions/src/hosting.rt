//! A session that a host holds.

ghost use Rattle.std.specs.Prelude.{◌≡◌, ◌<◌, IfOk};
ghost use Rattle.smil_report.specs.Tellings.{is_telling};
ghost use Rattle.smil_script.specs.Gives.{HoldsGiven};

use smil_interval::Steps;
use smil_model::{Bytes, GrowingList, LINE_BYTES, Order, Refusal};
use smil_report::{Change, Name, put_change, put_gone};
use smil_script::{Read, read_line};
use smil_test_cases::{Fault, put, put_maybe, put_number};
use smil_top::{CallRefusal, Fault as CallFault, Held};
use std::alloc::{AllocError, Global};
use std::marker::Brand;
use std::sync::ledger::{Blank, Ledger};

/// What a host asks of the session that it holds, one thing behind another.
#[derive(Drop)]
pub struct Requests {
    list: GrowingList<Request>,
}

// What a host asks of the session at a time.
#[derive(Drop)]
enum Request {
    // It gives a line, without an end.
    Line(Bytes),
    // It gives the order that a line says, by a call.
    Order(Bytes),
    // It loads a presentation by a call: the line that opens the load, and the outline.
    Load { head: Bytes, outline: Bytes },
    // It closes the presentation of this name by a call.
    Close(Bytes),
    // It asks where the last call was refused.
    Fault,
    // It asks at which moment the presentation of this name is.
    Moment(Bytes),
    // It asks at which moment something comes next in it.
    Next(Bytes),
}

impl Requests {
    /// Nothing is asked.
    pub fn new(alloc: Global) -> Requests {
        Requests {
            list: GrowingList::new(alloc),
        }
    }

    /// Adds a request, which a mark names: a line, or a question about a presentation.
    pub fn add(&mut self, alloc: Global, mark: &str, text: &str) -> Result<(), Fault> {
        let bytes = Bytes::of(alloc, text.as_bytes())?;
        let request = match mark {
            "" => Request::Line(bytes),
            "call" => Request::Order(bytes),
            "load" => load_of(alloc, text)?,
            "close" => Request::Close(bytes),
            "fault" => Request::Fault,
            "moment" => Request::Moment(bytes),
            "next" => Request::Next(bytes),
            _ => return Err(Fault::Refused),
        };
        self.list.push(request)?;
        Ok(())
    }

    /// Appends what a session answers to all that is asked.
    pub fn answer(&self, alloc: Global, told: &mut Bytes) -> Result<(), Fault> {
        answer_each::<Brand>(alloc, self.list.slice(), Blank::new(1), told)
    }
}

// A load by a call: the line that opens it, and the lines of its outline, each behind a bar.
fn load_of(alloc: Global, text: &str) -> Result<Request, Fault> {
    let (head, lines) = text.split_once('|').unwrap_or((text, ""));
    let mut outline = Bytes::new(alloc);
    for byte in lines.as_bytes() {
        outline.push(if *byte == b'|' { b'\n' } else { *byte })?;
    }
    Ok(Request::Load {
        head: Bytes::of(alloc, head.as_bytes())?,
        outline,
    })
}

// Appends what a session answers to each request, whose evaluations are counted from 0.
fn answer_each<L: Ledger>(
    alloc: Global,
    requests: &[Request],
    blank: Blank,
    told: &mut Bytes,
) -> Result<(), Fault>
    requires name { blank.name ≡ L.name }
    requires parts { blank.parts ≡ L.parts }
    requires backed { 0 < blank.parts }
{
    let mut held = Held::new(alloc)?;
    let mut steps = Steps::<L>::new(blank);
    for request in requests {
        match request {
            Request::Line(line) => answer_line(&mut held, line, &mut steps, told)?,
            Request::Order(line) => answer_call(alloc, &mut held, line, &mut steps, told)?,
            Request::Load { head, outline } => {
                answer_load(&mut held, head, outline, &mut steps, told)?
            }
            Request::Close(name) => put_done(told, held.close(name.slice()))?,
            Request::Fault => put_fault(told, held.fault())?,
            Request::Moment(name) => put_answer(told, "moment", held.moment(name.slice()))?,
            Request::Next(name) => put_answer(told, "next", held.next_due(name.slice()))?,
        }
    }
    Ok(())
}

// Gives a session a line, and appends its answer.
fn answer_line<L: Ledger>(
    held: &mut Held,
    line: &Bytes,
    steps: &mut Steps<L>,
    told: &mut Bytes,
) -> Result<(), Fault> {
    if held.line(line.slice(), steps).is_err() {
        return Err(Fault::Refused);
    }
    let (changes, last_line) = held.answer();
    told.append(changes)?;
    told.append(last_line)?;
    Ok(())
}

// Gives a session the order that a line says, by a call, and appends what it changes and how it
// ended. A line that says none that may change something is refused.
fn answer_call<L: Ledger>(
    alloc: Global,
    held: &mut Held,
    line: &Bytes,
    steps: &mut Steps<L>,
    told: &mut Bytes,
) -> Result<(), Fault> {
    let Read::To { name, order } = read_short(alloc, line.slice())? else {
        return Err(Fault::Refused);
    };
    if only_tells(&order) {
        return Err(Fault::Refused);
    }
    let answered = held.change(name.slice(), &order, steps);
    for change in held.changes() {
        put_record(told, change)?;
    }
    put_end(told, answered)?;
    Ok(())
}

// Loads a presentation by a call, and appends what is told of it and how the call ended.
fn answer_load<L: Ledger>(
    held: &mut Held,
    head: &Bytes,
    outline: &Bytes,
    steps: &mut Steps<L>,
    told: &mut Bytes,
) -> Result<(), Fault> {
    if head.len() > LINE_BYTES {
        return Err(Fault::Refused);
    }
    let loaded = held.load(head.slice(), outline.slice(), steps);
    for change in held.changes() {
        put_record(told, change)?;
    }
    put_done(told, loaded)?;
    Ok(())
}

// What a line says that isn't too long.
fn read_short(alloc: Global, line: &[u8]) -> Result<Read, Fault>
    ensures { IfOk result HoldsGiven }
{
    if line.len() > LINE_BYTES {
        return Err(Fault::Refused);
    }
    match read_line(alloc, line) {
        Ok(read) => Ok(read),
        Err(Refusal::Memory) => Err(Fault::Memory),
        Err(_) => Err(Fault::Refused),
    }
}

// Whether an order only tells something.
fn only_tells(order: &Order) -> bool
    ensures { result ≡ is_telling order.now }
{
    match order {
        Order::Show
        | Order::History { .. }
        | Order::Text
        | Order::Save
        | Order::Diary
        | Order::Values
        | Order::Stack { .. } => true,
        _ => false,
    }
}

// The line of a record, with the element's serial.
fn put_record(told: &mut Bytes, change: &Change) -> Result<(), AllocError> {
    match change {
        Change::Shown { moment, view } => {
            put_change(told, *moment, Name::Serial(view.serial), view)
        }
        Change::Gone { moment, serial } => put_gone(told, *moment, Name::Serial(*serial)),
    }
}

// How an order by a call ended: its presentation's moment, or why nothing changed.
fn put_end(told: &mut Bytes, answered: Result<i64, CallRefusal>) -> Result<(), AllocError> {
    match answered {
        Ok(now) => put_answer(told, "ok", Some(now)),
        Err(refusal) => put_refusal(told, refusal),
    }
}

// How a load or a close by a call ended.
fn put_done(told: &mut Bytes, answered: Result<(), CallRefusal>) -> Result<(), AllocError> {
    match answered {
        Ok(()) => put(told, "ok\n"),
        Err(refusal) => put_refusal(told, refusal),
    }
}

// Why a call changed nothing.
fn put_refusal(told: &mut Bytes, refusal: CallRefusal) -> Result<(), AllocError> {
    match refusal {
        CallRefusal::Refused(refusal) => {
            put(told, "! ")?;
            put(told, refusal.word())?;
            told.push(b'\n')
        }
        CallRefusal::OpenLoad => put(told, "open load\n"),
        CallRefusal::TooManyCalls => put(told, "too many\n"),
    }
}

// Where the last call was refused: the line, and the column where there is one; `-` where it wasn't.
fn put_fault(told: &mut Bytes, fault: Option<CallFault>) -> Result<(), AllocError> {
    let Some(fault) = fault else {
        return put(told, "fault -\n");
    };
    put(told, "fault")?;
    put_number(told, u64::from(fault.line))?;
    if let Some(column) = fault.refusal.column() {
        put_number(told, u64::from(column))?;
    }
    told.push(b'\n')
}

// A line of a word and the moment that it asks for, `-` where there is none.
fn put_answer(told: &mut Bytes, word: &str, moment: Option<i64>) -> Result<(), AllocError> {
    put(told, word)?;
    put_maybe(told, moment)?;
    told.push(b'\n')
}
