//! Access to values.

use cadf_json::{Json, Member, View};
use calls::Call;
use json::Scratch;
use std::alloc::{AllocError as Memory, Global};

/// Answers what the first word asks of the value that the second spells.
pub(crate) fn value(alloc: Global, call: &Call) -> Result<String, Memory> {
    match Json::read(alloc, call.bytes(2)) {
        Ok(json) => seen(alloc, call, &json.view()),
        Err(fault) => calls::refused(alloc, &fault),
    }
}

/// Answers what the value of the text is, as `kind` does.
pub(crate) fn value_kind(alloc: Global, bytes: &[u8]) -> Result<String, Memory> {
    match Json::read(alloc, bytes) {
        Ok(json) => kind(alloc, &json.view()),
        Err(fault) => calls::refused(alloc, &fault),
    }
}

/// Answers the canonical text of the value that the second text spells, read into the memory of the first one's.
pub(crate) fn reused(alloc: Global, call: &Call) -> Result<String, Memory> {
    let mut json = Json::new(alloc);
    let mut scratch = Scratch::new(alloc);
    let _first = json.read_into(alloc, &mut scratch, call.bytes(1));
    match json.read_into(alloc, &mut scratch, call.bytes(2)) {
        Ok(()) => shown(alloc, "ok", &json.view()),
        Err(fault) => calls::refused(alloc, &fault),
    }
}

/// Answers the canonical text of the value that a canonical text spells.
pub(crate) fn canonical(alloc: Global, text: &str) -> Result<String, Memory> {
    match Json::read_canonical(alloc, text) {
        Ok(json) => shown(alloc, "ok", &json.view()),
        Err(fault) => calls::refused(alloc, &fault),
    }
}

/// Answers what the first word asks.
fn seen(alloc: Global, call: &Call, view: &View<'_>) -> Result<String, Memory> {
    match call.text(1) {
        "kind" => kind(alloc, view),
        "item" => found(alloc, view.item(call.number(3))),
        "member" => found(alloc, view.member(call.text(3))),
        "name" => name(alloc, view.name_at(call.number(3))),
        "items" => items(alloc, view),
        "members" => members(alloc, view),
        "within" => within(alloc, view, call),
        "rewritten_text" => rewritten_text(alloc, view, call),
        _ => shown(alloc, "ok", view),
    }
}

/// Answers the word and the canonical text of a part.
pub(crate) fn shown(alloc: Global, word: &str, view: &View<'_>) -> Result<String, Memory> {
    let text = view.text(alloc)?;
    calls::answer(alloc, word, &[text.as_str()])
}

/// Answers whether the part is null, an object, a list; how many parts it has, how deep it nests, and its text.
fn kind(alloc: Global, view: &View<'_>) -> Result<String, Memory> {
    let (null, object, list) = (view.is_null(), view.is_object(), view.is_list());
    let mut line = format!(in alloc;
        "{null}\t{object}\t{list}\t{}\t{}",
        view.len(),
        view.depth()
    )?;
    if let Some(text) = view.as_text() {
        calls::push(&mut line, text)?;
    }
    Ok(line)
}

/// Answers a part, if there is one.
fn found(alloc: Global, part: Option<View<'_>>) -> Result<String, Memory> {
    match part {
        Some(view) => shown(alloc, "some", &view),
        None => calls::answer(alloc, "none", &[]),
    }
}

/// Answers a name, if there is one.
fn name(alloc: Global, name: Option<&str>) -> Result<String, Memory> {
    match name {
        Some(name) => calls::answer(alloc, "some", &[name]),
        None => calls::answer(alloc, "none", &[]),
    }
}

/// Answers the texts of the items.
fn items(alloc: Global, view: &View<'_>) -> Result<String, Memory> {
    let mut line = calls::answer(alloc, "ok", &[])?;
    for item in view.items() {
        calls::push(&mut line, item.text(alloc)?.as_str())?;
    }
    Ok(line)
}

/// Answers the names and the texts of the members.
fn members(alloc: Global, view: &View<'_>) -> Result<String, Memory> {
    let mut line = calls::answer(alloc, "ok", &[])?;
    for member in view.members() {
        push_member(alloc, &mut line, &member)?;
    }
    Ok(line)
}

/// Adds the name and the text of a member.
fn push_member(alloc: Global, line: &mut String, member: &Member<'_>) -> Result<(), Memory> {
    calls::push(line, member.name)?;
    calls::push(line, member.value.text(alloc)?.as_str())
}

/// Answers whether each member nests within the limit of its name, or the one for other names.
fn within(alloc: Global, view: &View<'_>, call: &Call) -> Result<String, Memory> {
    let limit = u8::try_from(call.number(4)).unwrap_or(0);
    let others = u8::try_from(call.number(5)).unwrap_or(0);
    let fits = view.members_nest_within(&[(call.text(3), limit)], others);
    format!(in alloc; "{fits}")
}

/// Answers the object with another text at a name, without two members.
fn rewritten_text(alloc: Global, view: &View<'_>, call: &Call) -> Result<String, Memory> {
    let left_out = [call.text(5), call.text(6)];
    let text = view.rewritten_text(alloc, &left_out, call.text(3), call.text(4))?;
    calls::answer(alloc, "ok", &[text.as_str()])
}
