//! Values of attributes, as they are printed.

ghost use Rattle.std.specs.Prelude.{◌≡◌, ◌++◌, ◌<◌, ◌∷◌, codes, option_map, IfSome, All, OnOk, OnErr, Some};
ghost use Rattle.smil_grammar.specs.Attributes.{name_text};
ghost use Rattle.smil_grammar.specs.Texts.{space};
ghost use Rattle.smil_grammar.specs.Spellings.{dur_text, time_text, decimals, count_text, restart_text, fill_text, restart_default_text, fill_default_text, endsync_text, act_text, list_text, attr_at, value_text, attribute_text, CanWrite};
ghost use Rattle.smil_model.specs.document.Words.{Begins};
ghost use Rattle.smil_attrs.specs.Writable.{CanWriteDur, CanWriteTime, CanWriteAttr, CanWriteValue, spelled};

use super::names;
use itoa::Buffer;
use smil_clock_value::write_clock;
use smil_model::{
    Act, AttrName, Attrs, Bytes, Count, Dur, Endsync, Fill, FillDefault, Items, Restart,
    RestartDefault, Time,
};
use smil_time_list::spellings::write_list;
use std::alloc::AllocError;

/// A value as it is written.
#[derive(Clone, Copy)]
pub enum Value<'a> {
    Text(&'a [u8]),
    List(&'a Items),
    Clock(i64),
    Dur(Dur),
    Time(Time),
    Count(Count),
}

// The word of a `restart`.
fn restart(restart: Restart) -> &'static [u8]
    ensures { result.now ≡ restart_text restart }
{
    match restart {
        Restart::Always => b"always",
        Restart::WhenNotActive => b"whenNotActive",
        Restart::Never => b"never",
        Restart::ByDefault => b"default",
    }
}

// The word of a `fill`.
fn fill(fill: Fill) -> &'static [u8]
    ensures { result.now ≡ fill_text fill }
{
    match fill {
        Fill::Remove => b"remove",
        Fill::Freeze => b"freeze",
        Fill::Hold => b"hold",
        Fill::Auto => b"auto",
        Fill::ByDefault => b"default",
    }
}

// The word of a `restartDefault`.
fn restart_default(restart: RestartDefault) -> &'static [u8]
    ensures { result.now ≡ restart_default_text restart }
{
    match restart {
        RestartDefault::Always => b"always",
        RestartDefault::WhenNotActive => b"whenNotActive",
        RestartDefault::Never => b"never",
        RestartDefault::Inherit => b"inherit",
    }
}

// The word of a `fillDefault`.
fn fill_default(fill: FillDefault) -> &'static [u8]
    ensures { result.now ≡ fill_default_text fill }
{
    match fill {
        FillDefault::Remove => b"remove",
        FillDefault::Freeze => b"freeze",
        FillDefault::Hold => b"hold",
        FillDefault::Auto => b"auto",
        FillDefault::Inherit => b"inherit",
    }
}

// The word of what an excl does.
fn act(act: Act) -> &'static [u8]
    ensures { result.now ≡ act_text act }
{
    match act {
        Act::Stop => b"stop",
        Act::Pause => b"pause",
        Act::Defer => b"defer",
        Act::Never => b"never",
    }
}

// The word or the id of an `endsync`.
fn endsync(endsync: &Endsync) -> &[u8]
    ensures { result.now ≡ endsync_text endsync.now }
{
    match endsync {
        Endsync::Last => b"last",
        Endsync::First => b"first",
        Endsync::All => b"all",
        Endsync::Child(id) => id.slice(),
    }
}

// Appends a `dur`.
fn put_dur(dur: Dur, out: &mut Bytes) -> Result<(), AllocError>
    requires { CanWriteDur dur }
    ensures ok { OnOk result (out.new ≡ out.old ++ dur_text dur) }
    ensures err { OnErr result (out.new ≡ out.old) }
{
    match dur {
        Dur::Clock(value) => write_clock(value, out),
        Dur::Media => out.append(b"media"),
        Dur::Indefinite => out.append(b"indefinite"),
    }
}

// Appends a `max` or a `repeatDur`.
fn put_time(time: Time, out: &mut Bytes) -> Result<(), AllocError>
    requires { CanWriteTime time }
    ensures ok { OnOk result (out.new ≡ out.old ++ time_text time) }
    ensures err { OnErr result (out.new ≡ out.old) }
{
    match time {
        Time::At(value) => write_clock(value, out),
        Time::Indefinite => out.append(b"indefinite"),
        Time::Unresolved => Ok(()),
    }
}

// Three digits behind a point, without the zeros at their end.
fn put_decimals(thousandths: u64, out: &mut Bytes) -> Result<(), AllocError>
    requires { thousandths < 1000 }
    ensures ok { OnOk result (out.new ≡ out.old ++ decimals thousandths) }
    ensures err { OnErr result (out.new ≡ out.old) }
{
    let first = b'0' + (thousandths / 100) as u8;
    let second = b'0' + (thousandths / 10 % 10) as u8;
    let third = b'0' + (thousandths % 10) as u8;
    if thousandths == 0 {
        Ok(())
    } else if thousandths % 100 == 0 {
        out.append(&[b'.', first])
    } else if thousandths % 10 == 0 {
        out.append(&[b'.', first, second])
    } else {
        out.append(&[b'.', first, second, third])
    }
}

// Appends a `repeatCount`.
fn put_count(count: Count, out: &mut Bytes) -> Result<(), AllocError>
    ensures ok { OnOk result (out.new ≡ out.old ++ count_text count) }
    ensures err { OnErr result (Begins out.old out.new) }
{
    match count {
        Count::Thousandths(number) => {
            let mut buffer = Buffer::new();
            out.append(buffer.format(number / 1000).as_bytes())?;
            put_decimals(number % 1000, out)
        }
        Count::Indefinite => out.append(b"indefinite"),
    }
}

// The name of an attribute, behind a space and before its value.
#[tactic(auto, using(smil_model::proofs::GrowingTexts::begins_on))]
fn put_name(name: AttrName, out: &mut Bytes) -> Result<(), AllocError>
    ensures ok { OnOk result (out.new ≡ out.old ++ space ∷ (name_text name ++ codes "=\"")) }
    ensures err { OnErr result (Begins out.old out.new) }
{
    out.append(b" ")?;
    out.append(names::text(name))?;
    out.append(b"=\"")
}

// Appends a value.
fn put_value(value: &Value<'_>, out: &mut Bytes) -> Result<(), AllocError>
    requires { CanWriteValue value.now }
    ensures ok { OnOk result (out.new ≡ out.old ++ spelled value.now) }
    ensures err { OnErr result (Begins out.old out.new) }
{
    match value {
        Value::Text(text) => out.append(text),
        Value::List(items) => write_list(items, out),
        Value::Clock(value) => write_clock(*value, out),
        Value::Dur(dur) => put_dur(*dur, out),
        Value::Time(time) => put_time(*time, out),
        Value::Count(count) => put_count(*count, out),
    }
}

// A text that is there, as a value.
fn text(text: &Option<Bytes>) -> Option<Value<'_>>
    ensures spelled { option_map spelled result ≡ text.now }
    ensures fits { IfSome result CanWriteValue }
{
    match text {
        Some(text) => Some(Value::Text(text.slice())),
        None => None,
    }
}

// A list that is there, as a value.
fn list(items: &Option<Items>) -> Option<Value<'_>>
    ensures spelled { option_map spelled result ≡ option_map list_text items.now }
    ensures fits { IfSome items.now (All CanWrite) → IfSome result CanWriteValue }
{
    match items {
        Some(items) => Some(Value::List(items)),
        None => None,
    }
}

// The value of the attribute of this name, where it is there.
fn value_of(name: AttrName, attrs: &Attrs) -> Option<Value<'_>>
    requires { IfSome (attr_at attrs.now name) CanWriteAttr }
    ensures spelled { option_map spelled result ≡ value_text attrs.now name }
    ensures fits { IfSome result CanWriteValue }
{
    match name {
        AttrName::Id => text(&attrs.id),
        AttrName::Begin => list(&attrs.begin),
        AttrName::Dur => Some(Value::Dur(attrs.dur?)),
        AttrName::End => list(&attrs.end),
        AttrName::Min => Some(Value::Clock(attrs.min?)),
        AttrName::Max => Some(Value::Time(attrs.max?)),
        AttrName::RepeatCount => Some(Value::Count(attrs.repeat_count?)),
        AttrName::RepeatDur => Some(Value::Time(attrs.repeat_dur?)),
        AttrName::Restart => Some(Value::Text(restart(attrs.restart?))),
        AttrName::Fill => Some(Value::Text(fill(attrs.fill?))),
        AttrName::RestartDefault => Some(Value::Text(restart_default(attrs.restart_default?))),
        AttrName::FillDefault => Some(Value::Text(fill_default(attrs.fill_default?))),
        AttrName::Endsync => Some(Value::Text(endsync(attrs.endsync.as_ref()?))),
        AttrName::Peers => Some(Value::Text(act(attrs.peers?))),
        AttrName::Higher => Some(Value::Text(act(attrs.higher?))),
        AttrName::Lower => Some(Value::Text(act(attrs.lower?))),
        AttrName::Text(name) => text(attrs.texts.get(name)),
    }
}

/// Appends an attribute of this name, where it is there. After a refusal what was there before
/// stays at the front.
#[tactic(auto, using(smil_model::proofs::GrowingTexts::begins_on))]
pub fn put_attr(name: AttrName, attrs: &Attrs, out: &mut Bytes) -> Result<(), AllocError>
    requires { IfSome (attr_at attrs.now name) CanWriteAttr }
    ensures ok { OnOk result (out.new ≡ out.old
        ++ attribute_text name (value_text attrs.now name)) }
    ensures err { OnErr result (Begins out.old out.new) }
{
    match value_of(name, attrs) {
        Some(value) => {
            put_name(name, out)?;
            put_value(&value, out)?;
            out.append(b"\"")
        }
        None => Ok(()),
    }
}
