//! Laws of the definitions that the contracts of this crate cite.
//! Each body is empty: the contract is the law.

ghost use Rattle.std.specs.Prelude.{◌≡◌, ◌<◌, ◌≤◌, ℕ, Bool, List, ◌∷◌, ◌++◌};
ghost use Rattle.version_nodes.specs.Nodes.{Node};
ghost use Rattle.version_nodes.specs.Trees.{Ancestry, IsForest, line};
ghost use Rattle.version_nodes.specs.Statuses.{first_kind};
ghost use Rattle.bug_record.specs.Asked.{numbers_where};
ghost use Rattle.bug_record.specs.Sets.{has, IsAscending};
ghost use Rattle.bug_record.specs.Images.{put, HasMember};
ghost use Rattle.store_keys.specs.Keys.{key_of};
ghost use Rattle.bug_record.specs.declared.bug.SetImage.{SetImage};
ghost use Rattle.bug_record.specs.declared.bug.Shared.{Shared};
ghost use Rattle.bug_record.specs.declared.command.Change.{Change};
ghost use Rattle.base_words.specs.declared.named.TheConstants.{LARGEST_NUMBER};
ghost use Rattle.store_keys.specs.Keys.{empty_desk};
ghost use Rattle.table_content.specs.Content.{Content, no_content};
ghost use Rattle.table_content.specs.View.{desk_in, keeping_in};
ghost use Rattle.table_content.specs.KeptOutcomes.{with_kept};
ghost use Rattle.bug_record.specs.declared.outcome.Outcome.{Outcome};
ghost use Rattle.store_contract.specs.Kept.{none_kept, kept_also, AreGoodKept};
ghost use Rattle.table_content.specs.Kept.{IsKeptContent};
ghost use Rattle.table_content.specs.Branches.{with_nodes};
ghost use Rattle.table_content.specs.KindsAtNodes.{bug_passes, kind_of};
ghost use Rattle.table_content.specs.Images.{IsGoodImage, IsCleared};
ghost use Rattle.table_content.specs.Staying.{Stays};
ghost use Rattle.table_content.specs.Changes.{keeps_marks, with_images, cleared_for, changed, FitsContent};

/// Where the rows of all images of a change are cleared and put, and last the next number, the
/// content shows the desk after the change, and is one that a desk keeps again.
pub fn changes_are_put()
    ensures desk { (c : Content) (change : Change) → IsKeptContent c → FitsContent c change →
        desk_in (changed c change) ≡ put (desk_in c) change }
    ensures kept { (c : Content) (change : Change) → IsKeptContent c → FitsContent c change →
        IsKeptContent (changed c change) }
    ensures keeping { (c : Content) (change : Change) → keeping_in (changed c change) ≡ keeping_in c }
{}

/// The rows of all images of a change are cleared; when then the turn of an image comes to be put,
/// the image is good, and nothing stands under its key and its bugs but marks that it has itself.
pub fn images_are_ready()
    ensures good { (c : Content) (change : Change) (xs : List SetImage) (i : SetImage) (ys : List SetImage) →
        IsKeptContent c → FitsContent c change → change.images ≡ xs ++ i ∷ ys → IsGoodImage i }
    ensures cleared { (c : Content) (change : Change) (xs : List SetImage) (i : SetImage) (ys : List SetImage) →
        IsKeptContent c → FitsContent c change → change.images ≡ xs ++ i ∷ ys →
        IsCleared (keeps_marks c i) i (with_images xs (cleared_for c change)) }
    ensures nodes { (c : Content) (change : Change) (xs : List SetImage) →
        (with_images xs (cleared_for c change)).nodes ≡ c.nodes }
{}

/// Where the bugs of an image are those that stand under its key, they are that key's set, and
/// nothing stands under the numbers of the others.
pub fn sets_stay()
    ensures { (c : Content) (i : SetImage) → IsKeptContent c → HasMember i → c.members (key_of i) ≡ i.members → Stays i c }
{}

/// Where an outcome is kept of the message of an id, the content shows it behind the others of the
/// id, and the desk as it was; it is one that a desk keeps again, where what is shown of messages
/// is right.
pub fn outcomes_are_kept()
    ensures desk { (c : Content) (id sender message : List ℕ) (outcome : Outcome) →
        desk_in (with_kept id sender message outcome c) ≡ desk_in c }
    ensures keeping { (c : Content) (id sender message : List ℕ) (outcome : Outcome) → IsKeptContent c →
        keeping_in (with_kept id sender message outcome c) ≡ kept_also id sender message outcome (keeping_in c) }
    ensures kept { (c : Content) (id sender message : List ℕ) (outcome : Outcome) → IsKeptContent c →
        AreGoodKept (kept_also id sender message outcome (keeping_in c)) → IsKeptContent (with_kept id sender message outcome c) }
{}

/// A content over another ancestry, with the nearest marks there, shows the desk over that
/// ancestry, and is one that a desk keeps.
pub fn branches_are_put()
    ensures desk { (c : Content) (t : Ancestry) → desk_in (with_nodes t c) ≡ record (desk_in c) { tree = t } }
    ensures keeping { (c : Content) (t : Ancestry) → keeping_in (with_nodes t c) ≡ keeping_in c }
    ensures kept { (c : Content) (t : Ancestry) → IsKeptContent c → IsForest t → IsKeptContent (with_nodes t c) }
{}

/// The numbers of the bugs that have a set whose shared fields pass a test are those of the bugs of
/// the desk that pass it.
pub fn bugs_are_asked_by_sets()
    ensures { (c : Content) (test : Shared → Bool) (numbers : List ℕ) → IsKeptContent c → IsAscending numbers →
        ((n : ℕ) → has numbers n ≡ bug_passes test c n) → numbers ≡ numbers_where test (desk_in c) }
{}

/// The kind that a row of nearest marks says, after a node's own, is that of the first mark on the
/// node's line, also where the node is not known.
pub fn kinds_are_nearest()
    ensures { (c : Content) (k : ℕ) (v : Node) → IsKeptContent c →
        kind_of c k v ≡ first_kind (c.found k) (c.fixed k) (line c.nodes v) }
{}

/// The content of a new desk, whose next number is one that a bug may have, shows the desk with no
/// bug and no node, and no message, and is one that a desk keeps.
pub fn new_contents_are_kept()
    ensures desk { (first : ℕ) → desk_in (no_content first) ≡ empty_desk first }
    ensures keeping { (first : ℕ) → keeping_in (no_content first) ≡ none_kept }
    ensures kept { (first : ℕ) → 0 < first → first ≤ LARGEST_NUMBER → IsKeptContent (no_content first) }
{}
