//! Calls of smil_stretch and smil_instances: clocks and instance times at a moment.

ghost use Rattle.smil_model.specs.Times.{IsMoment};

use smil_instances::Instances;
use smil_model::{Bytes, Edge, Time};
use smil_stretch::Clocks;
use smil_test_cases::{put_flag, put_number, put_time, put_word};
use std::alloc::AllocError;

/// A moment, and the clocks of the elements that stand or run at it.
#[derive(Clone, Copy)]
pub struct PlayMoment<'a> {
    pub clocks: &'a Clocks,
    pub moment: i64,
}

/// The clocks of elements.
pub fn put_clocks(out: &mut Bytes, present: &PlayMoment<'_>, whos: &[u32]) -> Result<(), AllocError>
    requires { IsMoment present.now.moment }
{
    let mut before = whos.first().copied().unwrap_or(0);
    for who in whos {
        put_clock(out, present, *who, before)?;
        before = *who;
    }
    Ok(())
}

// The clocks of an element: what its own and its time parent's show, whether they stand, 7 on the
// latter in document time, and what that clock shows where that of the element before shows 7.
fn put_clock(
    out: &mut Bytes,
    present: &PlayMoment<'_>,
    who: u32,
    before: u32,
) -> Result<(), AllocError>
    requires { IsMoment present.now.moment }
{
    let PlayMoment { clocks, moment } = *present;
    put_number(out, who)?;
    put_number(out, clocks.run(who, moment))?;
    put_number(out, clocks.outer(who, moment))?;
    put_flag(out, clocks.stands(who))?;
    put_flag(out, clocks.outer_stands(who))?;
    put_number(out, clocks.to_document(who, 7, moment))?;
    put_number(out, clocks.between(before, who, 7, moment))?;
    put_word(out, "/")
}

/// The instance times of elements.
pub fn put_instances(
    out: &mut Bytes,
    instances: &Instances,
    present: &PlayMoment<'_>,
    whos: &[u32],
) -> Result<(), AllocError>
    requires { IsMoment present.now.moment }
{
    for who in whos {
        let now = present.clocks.outer(*who, present.moment);
        put_instance(out, instances, *who, now)?;
    }
    Ok(())
}

// The begins of an element behind `<`, its ends behind `>`; and behind `:` whether it has an end,
// and the first times of both sides by two values: what the clock of the time parent shows, and
// the first begin, or 0 where there is none.
fn put_instance(
    out: &mut Bytes,
    instances: &Instances,
    who: u32,
    now: i64,
) -> Result<(), AllocError> {
    put_number(out, who)?;
    put_word(out, "<")?;
    put_once(out, instances.begins(who), put_number::<i64>)?;
    put_word(out, ">")?;
    put_once(out, instances.ends(who), put_time)?;
    put_word(out, ":")?;
    put_flag(out, instances.any_end(who))?;
    put_first(out, instances, who, now)?;
    let first = instances.begins(who).first().copied().unwrap_or(0);
    put_first(out, instances, who, first)?;
    put_word(out, "/")
}

// Times that rise, each once.
fn put_once<T, F>(out: &mut Bytes, times: &[T], put: F) -> Result<(), AllocError>
where
    T: Copy + PartialEq,
    F: Fn(&mut Bytes, T) -> Result<(), AllocError>,
    requires { F.IsAlwaysCallable put }
{
    let mut last = None;
    for time in times {
        if last != Some(*time) {
            put(out, *time)?;
        }
        last = Some(*time);
    }
    Ok(())
}

// The first begin and the first end from a value on, and those after it.
fn put_first(
    out: &mut Bytes,
    instances: &Instances,
    who: u32,
    value: i64,
) -> Result<(), AllocError> {
    put_time(out, instances.first_from(who, Edge::Begin, value))?;
    put_time(out, instances.first_from(who, Edge::End, value))?;
    put_time(out, instances.first_after(who, Edge::Begin, value))?;
    put_time(out, instances.first_after(who, Edge::End, value))
}
