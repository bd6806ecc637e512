//! Sets of package names, in the order of their bytes, as those that a bug affects.

ghost use Rattle.std.specs.Prelude.{◌≡◌, ◌++◌, not, filter, IfOk, OnOk, OnErr};
ghost use Rattle.base_sequences.specs.Ordered.{with_each};
ghost use Rattle.bug_record.specs.PackageSets.{name_cmp, has_name, with_name, name_set};

use base_sequences::Sequence;
use debver::Text;
use std::alloc::{AllocError, Global};
use std::collections::BTreeSet;

/// A list of package names; where it is a set, they are in the order of their bytes.
pub type Names = Sequence<Text>;

// Adds a copy of the name to a set, unless it is there.
fn add_name(set: &mut BTreeSet<Text>, name: &Text) -> Result<(), AllocError>
    ensures { OnOk result (set.new.keys ≡ with_name set.old.keys name.now) }
{
    set.insert(name.copy()?)?;
    Ok(())
}

/// Adds copies of these names to a set, each in its place, unless it is there.
pub fn add_names(set: &mut BTreeSet<Text>, names: &[Text]) -> Result<(), AllocError>
    ensures { OnOk result (set.new.keys ≡ with_each name_cmp set.old.keys names.now) }
{
    for name in names {
        add_name(set, name)?;
    }
    Ok(())
}

/// The set of these names.
pub fn name_set(alloc: Global, names: &[Text]) -> Result<BTreeSet<Text>, AllocError>
    ensures { IfOk result (λ set. set.keys ≡ name_set names.now) }
{
    let mut set = BTreeSet::new(alloc);
    add_names(&mut set, names)?;
    Ok(set)
}

/// Makes the list the set of its names and these.
/// Where there is no memory, the list is as before.
pub fn add_all_names(list: &mut Names, names: &[Text]) -> Result<(), AllocError>
    ensures ok { OnOk result (list.new ≡ name_set (list.old ++ names.now)) }
    ensures err { OnErr result (list.new ≡ list.old) }
{
    let alloc = list.allocator();
    let mut set = name_set(alloc, list.as_slice())?;
    add_names(&mut set, names)?;
    *list = Sequence::of_set(alloc, set)?;
    Ok(())
}

// Takes the names of a set out.
fn remove_set(list: &mut Names, set: &BTreeSet<Text>)
    ensures { list.new ≡ filter (λ n. not (has_name set.now.keys n)) list.old }
{
    list.retain(|name| !set.contains(name));
}

/// Takes these names out.
/// Where there is no memory, the list is as before.
pub fn remove_names(list: &mut Names, names: &[Text]) -> Result<(), AllocError>
    ensures ok { OnOk result (list.new ≡ filter (λ n. not (has_name names.now n)) list.old) }
    ensures err { OnErr result (list.new ≡ list.old) }
{
    let set = name_set(list.allocator(), names)?;
    remove_set(list, &set);
    Ok(())
}

/// Makes the list the set of these names.
/// Where there is no memory, the list is as before.
pub fn replace_names(list: &mut Names, names: &[Text]) -> Result<(), AllocError>
    ensures ok { OnOk result (list.new ≡ name_set names.now) }
    ensures err { OnErr result (list.new ≡ list.old) }
{
    let alloc = list.allocator();
    let set = name_set(alloc, names)?;
    *list = Sequence::of_set(alloc, set)?;
    Ok(())
}

/// An equal list, whose names share their texts with these.
/// It answers out of memory where there is none for the list, or where no more copies of a text
/// can be counted.
pub fn copy_names(names: &Names) -> Result<Names, AllocError>
    ensures { IfOk result (λ r. r ≡ names.now) }
{
    let mut copies = Vec::with_capacity(names.allocator(), names.as_slice().len())?;
    for name in names.as_slice() {
        copies.push(name.copy()?)?;
    }
    Ok(Sequence::from_vec(copies))
}
