//! The ids of messages.

ghost use Rattle.std.specs.Prelude.{◌≡◌};
ghost use Rattle.std.specs.List.{list_all};
ghost use Rattle.base_words.specs.Ids.{is_visible, is_id};

fn are_visible(bytes: &[u8]) -> bool
    ensures { result ≡ list_all is_visible bytes.now }
{
    bytes.iter().all(|byte| (33..=126).contains(byte))
}

/// Whether this is an id of a message: 1 to 100 visible ASCII characters, whose codes are from 33
/// to 126.
/// It takes no memory.
/// This project's own rule.
#[tactic(auto, unfolding(crate::specs::Ids::is_id))]
pub fn is_id(id: &str) -> bool
    ensures { result ≡ is_id id.now }
{
    let bytes = id.as_bytes();
    if bytes.is_empty() || bytes.len() > 100 {
        return false;
    }
    are_visible(bytes)
}
