//! The members that a request has.

ghost use Rattle.std.specs.Prelude.{◌≡◌, IfOk, map, option_map};
ghost use Rattle.serde_json.specs.Find.{get};
ghost use Rattle.serde_json.specs.View.{view, items_view};
ghost use Rattle.http_routes.specs.Members.{string_member, optional_text, strings_of};
ghost use Rattle.http_routes.specs.Members.{report_members, control_members, id_member, branch_member};
ghost use Rattle.http_routes.specs.Shown.{report_shown, control_shown, texts_shown};

use serde_json::Value;
use std::alloc::{AllocError, Global};

/// The members of a report: `POST /bugs`.
#[derive(Clone, Copy)]
pub struct ReportMembers<'v> {
    pub from: &'v str,
    pub package: &'v str,
    pub severity: &'v str,
    pub title: &'v str,
    /// None where the member is null or absent.
    pub version: Option<&'v str>,
}

/// The members of a control message: `POST /control`.
#[derive(Clone, Copy)]
pub struct ControlMembers<'v> {
    pub from: &'v str,
    pub message: &'v str,
}

// The string that is the member of this name.
fn string_member<'v>(value: &'v Value, name: &str) -> Option<&'v str>
    ensures { option_map (λ s. s.now) result ≡ string_member name.now (view value.now) }
{
    value.get(name).and_then(Value::as_str)
}

// A member that need not be there: a string, or none where it is null or absent.
fn optional_member<'v>(value: &'v Value, name: &str) -> Option<Option<&'v str>>
    ensures { option_map (option_map (λ s. s.now)) result
        ≡ optional_text (get name.now (view value.now)) }
{
    let Some(member) = value.get(name) else {
        return Some(None);
    };
    match member {
        Value::Null => Some(None),
        Value::String(text) => Some(Some(text.as_str())),
        _ => None,
    }
}

/// The members of a report: strings `from`, `package`, `severity` and `title`, and `version`, which
/// is a string, null or absent.
/// None where the value is no object, or a member is missing or of another kind.
/// Other members are ignored; what the strings hold is not looked at.
/// This is this project's own rule.
pub fn report_members(value: &Value) -> Option<ReportMembers<'_>>
    ensures { option_map report_shown result ≡ report_members (view value.now) }
{
    Some(ReportMembers {
        from: string_member(value, "from")?,
        package: string_member(value, "package")?,
        severity: string_member(value, "severity")?,
        title: string_member(value, "title")?,
        version: optional_member(value, "version")?,
    })
}

/// The members of a control message: strings `from` and `message`.
/// None where the value is no object, or a member is missing or of another kind.
/// Other members are ignored; what the strings hold is not looked at.
/// This is this project's own rule.
pub fn control_members(value: &Value) -> Option<ControlMembers<'_>>
    ensures { option_map control_shown result ≡ control_members (view value.now) }
{
    Some(ControlMembers {
        from: string_member(value, "from")?,
        message: string_member(value, "message")?,
    })
}

/// The member `id` of a control message: a string, or none where it is null or absent.
/// None at all where the member is of another kind; what the string holds is not looked at.
/// This is this project's own rule.
pub fn id_member(value: &Value) -> Option<Option<&str>>
    ensures { option_map (option_map (λ s. s.now)) result ≡ id_member (view value.now) }
{
    optional_member(value, "id")
}

// The strings that the items of an array are.
fn strings<'v>(alloc: Global, items: &'v [Value]) -> Result<Option<Vec<&'v str>>, AllocError>
    ensures { IfOk result
        (λ found. option_map texts_shown found ≡ strings_of (items_view items.now)) }
{
    let mut texts = Vec::new(alloc);
    for item in items {
        let Some(text) = item.as_str() else {
            return Ok(None);
        };
        texts.push(text)?;
    }
    Ok(Some(texts))
}

/// The member of a branch: `branch`, an array of strings, which may be empty: `POST /branches`.
/// None where the value is no object, the member is missing or no array, or any item is no string.
/// Other members are ignored; what the strings hold is not looked at.
/// This is this project's own rule.
///
/// # Errors
///
/// Where there is no memory for the list of them.
pub fn branch_member(alloc: Global, value: &Value) -> Result<Option<Vec<&str>>, AllocError>
    ensures { IfOk result
        (λ branch. option_map texts_shown branch ≡ branch_member (view value.now)) }
{
    match value.get("branch").and_then(Value::as_array) {
        Some(items) => strings(alloc, items),
        None => Ok(None),
    }
}
