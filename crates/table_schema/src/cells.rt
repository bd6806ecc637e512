//! Cells of a row as numbers, texts and nodes.

ghost use Rattle.std.specs.Prelude.{◌≡◌, ◌<◌, ◌+◌, ℕ, pos, true, List, length, Option, IfOk, IfErr};
ghost use Rattle.std.specs.Str.{IsUtf8};
ghost use Rattle.sqlite.specs.Order.{column};
ghost use Rattle.sqlite.specs.Values.{or_null};
ghost use Rattle.sqlite.specs.declared.types.Value.TheVariants.{Int, Text as TextCell, Blob};
ghost use Rattle.version_nodes.specs.Nodes.{Node as SeenNode, IsNode};
ghost use Rattle.base_words.specs.Texts.{IfGiven};
ghost use Rattle.base_faults.specs.declared.store_fault.StoreFault.TheVariants.{Memory};

use crate::faults::fault_of;
use base_faults::StoreFault;
use debver::Text;
use sqlite::Row;
use sqlite::types::ValueRef;
use std::alloc::Global;
use version_nodes::{Node, NodeFault};

/// The number in a cell, counted from 0; one below 0 can't be read.
pub fn number_at(row: &Row, at: usize) -> Result<u64, StoreFault>
    ensures value { (n : ℕ) → column row.now at ≡ Int (pos n) → IfOk result (λ v. v ≡ n) }
    ensures memory { (n : ℕ) → at < length row.now → column row.now at ≡ Int (pos n) → IfErr result (λ fault. fault ≡ Memory) }
{
    match row.get::<u64>(at) {
        Ok(number) => Ok(number),
        Err(error) => Err(fault_of(&error)),
    }
}

/// The number in a cell, counted from 0, if it has one; one below 0 can't be read.
pub fn maybe_number_at(row: &Row, at: usize) -> Result<Option<u64>, StoreFault>
    ensures value { (n : Option ℕ) → column row.now at ≡ or_null (λ k. Int (pos k)) n → IfOk result (λ v. v ≡ n) }
    ensures memory { (n : Option ℕ) → at < length row.now → column row.now at ≡ or_null (λ k. Int (pos k)) n →
        IfErr result (λ fault. fault ≡ Memory) }
{
    match row.get::<Option<u64>>(at) {
        Ok(number) => Ok(number),
        Err(error) => Err(fault_of(&error)),
    }
}

// A text that is kept.
fn kept(alloc: Global, text: &str) -> Result<Text, StoreFault>
    ensures value { IfOk result (λ t. t ≡ text.now) }
    ensures memory { IfErr result (λ fault. fault ≡ Memory) }
{
    match Text::of(alloc, text) {
        Ok(text) => Ok(text),
        Err(_) => Err(StoreFault::Memory),
    }
}

// The text in a cell, counted from 0, where it stands; one that is no UTF-8 can't be read.
fn str_at(row: &Row, at: usize) -> Result<&str, StoreFault>
    ensures value { (t : List ℕ) → column row.now at ≡ TextCell t → IfOk result (λ v. v.now ≡ t) }
    ensures memory { (t : List ℕ) → at < length row.now → column row.now at ≡ TextCell t → IsUtf8 t → IfErr result (λ fault. fault ≡ Memory) }
{
    match row.get_ref(at) {
        Ok(ValueRef::Text(bytes)) => match std::str::from_utf8(bytes) {
            Ok(text) => Ok(text),
            Err(_) => Err(StoreFault::Foreign),
        },
        Ok(_) => Err(StoreFault::Foreign),
        Err(error) => Err(fault_of(&error)),
    }
}

/// The text in a cell, counted from 0; one that is no UTF-8 can't be read.
pub fn text_at(alloc: Global, row: &Row, at: usize) -> Result<Text, StoreFault>
    ensures value { (t : List ℕ) → column row.now at ≡ TextCell t → IfOk result (λ v. v ≡ t) }
    ensures memory { (t : List ℕ) → at < length row.now → column row.now at ≡ TextCell t → IsUtf8 t → IfErr result (λ fault. fault ≡ Memory) }
{
    match str_at(row, at) {
        Ok(found) => kept(alloc, found),
        Err(fault) => Err(fault),
    }
}

/// The text in a cell, counted from 0, if it has one; one that is no UTF-8 can't be read.
pub fn maybe_text_at(alloc: Global, row: &Row, at: usize) -> Result<Option<Text>, StoreFault>
    ensures value { (t : Option (List ℕ)) → column row.now at ≡ or_null TextCell t → IfOk result (λ v. v ≡ t) }
    ensures memory { (t : Option (List ℕ)) → at < length row.now → column row.now at ≡ or_null TextCell t → IfGiven IsUtf8 t →
        IfErr result (λ fault. fault ≡ Memory) }
{
    match row.get::<Option<String>>(at) {
        Ok(Some(text)) => match kept(alloc, text.as_str()) {
            Ok(text) => Ok(Some(text)),
            Err(fault) => Err(fault),
        },
        Ok(None) => Ok(None),
        Err(error) => Err(fault_of(&error)),
    }
}

// The text of these bytes; where they are no UTF-8 they are no desk's.
fn text_of(alloc: Global, bytes: &[u8]) -> Result<Text, StoreFault>
    ensures value { IfOk result (λ t. t ≡ bytes.now) }
    ensures memory { IsUtf8 bytes.now → IfErr result (λ fault. fault ≡ Memory) }
{
    match std::str::from_utf8(bytes) {
        Ok(text) => kept(alloc, text),
        Err(_) => Err(StoreFault::Foreign),
    }
}

/// The text whose bytes are in a cell, counted from 0; bytes that are no UTF-8 can't be read.
pub fn bytes_text_at(alloc: Global, row: &Row, at: usize) -> Result<Text, StoreFault>
    ensures value { (t : List ℕ) → column row.now at ≡ Blob t → IfOk result (λ v. v ≡ t) }
    ensures memory { (t : List ℕ) → at < length row.now → column row.now at ≡ Blob t → IsUtf8 t → IfErr result (λ fault. fault ≡ Memory) }
{
    match row.get::<Vec<u8>>(at) {
        Ok(bytes) => text_of(alloc, bytes.as_slice()),
        Err(error) => Err(fault_of(&error)),
    }
}

/// Whether a cell, counted from 0, has this number.
pub fn is_number_at(row: &Row, at: usize, number: u64) -> bool
    ensures { (n : ℕ) → column row.now at ≡ Int (pos n) → result ≡ true → n ≡ number }
{
    match number_at(row, at) {
        Ok(found) => found == number,
        Err(_) => false,
    }
}

/// Whether a cell, counted from 0, has this text.
pub fn is_text_at(row: &Row, at: usize, text: &str) -> bool
    ensures { (t : List ℕ) → column row.now at ≡ TextCell t → result ≡ true → t ≡ text.now }
{
    match str_at(row, at) {
        Ok(found) => found == text,
        Err(_) => false,
    }
}

// The node of two texts.
fn node_of(alloc: Global, source: &str, version: &str) -> Result<Node, StoreFault>
    ensures value { (v : SeenNode) → IsNode v → source.now ≡ v.source → version.now ≡ v.version → IfOk result (λ node. node ≡ v) }
    ensures memory { (v : SeenNode) → IsNode v → source.now ≡ v.source → version.now ≡ v.version → IfErr result (λ fault. fault ≡ Memory) }
{
    match Node::at(alloc, source, version) {
        Ok(node) => Ok(node),
        Err(NodeFault::Memory) => Err(StoreFault::Memory),
        Err(NodeFault::BadNode) => Err(StoreFault::Foreign),
    }
}

/// The node whose source stands in a cell, counted from 0, and its version in the next one.
/// `Foreign` where the texts are no package name and version.
pub fn node_at(alloc: Global, row: &Row, at: usize) -> Result<Node, StoreFault>
    requires { at < 100 }
    ensures value { (v : SeenNode) → IsNode v → column row.now at ≡ TextCell v.source → column row.now (at + 1) ≡ TextCell v.version →
        IfOk result (λ node. node ≡ v) }
    ensures memory { (v : SeenNode) → at + 1 < length row.now → IsNode v → column row.now at ≡ TextCell v.source →
        column row.now (at + 1) ≡ TextCell v.version → IfErr result (λ fault. fault ≡ Memory) }
{
    let source = match str_at(row, at) {
        Ok(source) => source,
        Err(fault) => return Err(fault),
    };
    match str_at(row, at + 1) {
        Ok(version) => node_of(alloc, source, version),
        Err(fault) => Err(fault),
    }
}
