//! Records read from the front of bytes.

ghost use Rattle.std.specs.Prelude.{◌≡◌, ◌↔◌, ℕ, None, IfSome, IsSomeAnd};
ghost use Rattle.dfs_record.specs.declared.Key.{Key};
ghost use Rattle.dfs_record.specs.declared.Record.{Record};
ghost use Rattle.std.specs.Int.{w16, w32, w64};
ghost use Rattle.dfs_record.specs.Lend.{key_of, value_of, record_of};
ghost use Rattle.dfs_record.specs.Reading.{Gives, number_at, text_at, name_at, reference_at, id_at, made_at, mode_at, key_at, dir_at, file_at, value_at, record_at};
ghost use Rattle.dfs_record.specs.Record.{SpelledFirst, NothingSpelled, KeySpelledFirst, NoKeySpelled};

use crate::names::{is_name_text, is_reference_text};
use crate::number::{read_u16, read_u32, read_u64};
use crate::{DirId, KeyRef, RecordRef, ValueRef};

fn u16_at(bytes: &[u8]) -> Option<(u16, &[u8])>
    ensures { Gives (λ x. (x.0, x.1.now)) result (number_at w16 bytes.now) }
{
    let number = read_u16(bytes)?;
    Some((number, &bytes[2..]))
}

fn u32_at(bytes: &[u8]) -> Option<(u32, &[u8])>
    ensures { Gives (λ x. (x.0, x.1.now)) result (number_at w32 bytes.now) }
{
    let number = read_u32(bytes)?;
    Some((number, &bytes[4..]))
}

fn u64_at(bytes: &[u8]) -> Option<(u64, &[u8])>
    ensures { Gives (λ x. (x.0, x.1.now)) result (number_at w64 bytes.now) }
{
    let number = read_u64(bytes)?;
    Some((number, &bytes[8..]))
}

fn text_of(bytes: &[u8]) -> Option<(&[u8], &[u8])>
    ensures { Gives (λ x. (x.0.now, x.1.now)) result (text_at bytes.now) }
{
    match bytes {
        [] => None,
        [len, rest @ ..] => {
            let len = *len as usize;
            if rest.len() < len {
                return None;
            }
            Some(rest.split_at(len))
        }
    }
}

#[tactic(auto, unfolding(crate::specs::Reading::name_at))]
fn name_of(bytes: &[u8]) -> Option<(&[u8], &[u8])>
    ensures { Gives (λ x. (x.0.now, x.1.now)) result (name_at bytes.now) }
{
    let (name, rest) = text_of(bytes)?;
    if !is_name_text(name) {
        return None;
    }
    Some((name, rest))
}

#[tactic(auto, unfolding(crate::specs::Reading::reference_at))]
fn reference_of(bytes: &[u8]) -> Option<(&[u8], &[u8])>
    ensures { Gives (λ x. (x.0.now, x.1.now)) result (reference_at bytes.now) }
{
    let (reference, rest) = text_of(bytes)?;
    if !is_reference_text(reference) {
        return None;
    }
    Some((reference, rest))
}

#[tactic(auto, unfolding(crate::specs::Reading::id_at))]
fn id_of(bytes: &[u8]) -> Option<(DirId, &[u8])>
    ensures { Gives (λ x. (x.0, x.1.now)) result (id_at bytes.now) }
{
    let (job, rest) = u32_at(bytes)?;
    let (counter, rest) = u32_at(rest)?;
    Some((DirId { job, counter }, rest))
}

#[tactic(auto, unfolding(crate::specs::Reading::made_at))]
fn made_of(bytes: &[u8]) -> Option<(DirId, &[u8])>
    ensures { Gives (λ x. (x.0, x.1.now)) result (made_at bytes.now) }
{
    let (id, rest) = id_of(bytes)?;
    if id.job < 1 || id.counter < 1 {
        return None;
    }
    Some((id, rest))
}

#[tactic(auto, unfolding(crate::specs::Reading::mode_at))]
fn mode_of(bytes: &[u8]) -> Option<(u16, &[u8])>
    ensures { Gives (λ x. (x.0, x.1.now)) result (mode_at bytes.now) }
{
    let (mode, rest) = u16_at(bytes)?;
    if mode > 4095 {
        return None;
    }
    Some((mode, rest))
}

#[tactic(auto, unfolding(crate::specs::Reading::key_at))]
fn key_front(bytes: &[u8]) -> Option<(KeyRef<'_>, &[u8])>
    ensures { Gives (λ x. (key_of x.0, x.1.now)) result (key_at bytes.now) }
{
    let (parent, rest) = id_of(bytes)?;
    let (name, rest) = name_of(rest)?;
    Some((KeyRef { parent, name }, rest))
}

#[tactic(auto, unfolding(crate::specs::Reading::dir_at))]
fn dir_of(bytes: &[u8]) -> Option<(ValueRef<'_>, &[u8])>
    ensures { Gives (λ x. (value_of x.0, x.1.now)) result (dir_at bytes.now) }
{
    let (id, rest) = made_of(bytes)?;
    let (mode, rest) = mode_of(rest)?;
    let (time, rest) = u64_at(rest)?;
    Some((ValueRef::Dir { id, mode, time }, rest))
}

#[tactic(auto, unfolding(crate::specs::Reading::file_at))]
fn file_of(bytes: &[u8]) -> Option<(ValueRef<'_>, &[u8])>
    ensures { Gives (λ x. (value_of x.0, x.1.now)) result (file_at bytes.now) }
{
    let (mode, rest) = mode_of(bytes)?;
    let (time, rest) = u64_at(rest)?;
    let (size, rest) = u64_at(rest)?;
    let (reference, rest) = reference_of(rest)?;
    Some((
        ValueRef::File {
            mode,
            time,
            size,
            reference,
        },
        rest,
    ))
}

#[tactic(auto, unfolding(crate::specs::Reading::value_at))]
fn value_front(bytes: &[u8]) -> Option<(ValueRef<'_>, &[u8])>
    ensures { Gives (λ x. (value_of x.0, x.1.now)) result (value_at bytes.now) }
{
    match bytes {
        [0, rest @ ..] => Some((ValueRef::Del, rest)),
        [1, rest @ ..] => dir_of(rest),
        [2, rest @ ..] => file_of(rest),
        _ => None,
    }
}

#[tactic(auto, unfolding(crate::specs::Reading::record_at))]
fn record_front(bytes: &[u8]) -> Option<(RecordRef<'_>, &[u8])>
    ensures { Gives (λ x. (record_of x.0, x.1.now)) result (record_at bytes.now) }
{
    let (key, rest) = key_front(bytes)?;
    let (value, rest) = value_front(rest)?;
    Some((RecordRef { key, value }, rest))
}

/// The record that the first bytes spell, and how many they are.
pub fn decode(bytes: &[u8]) -> Option<(RecordRef<'_>, usize)>
    ensures found { IfSome result (λ p. SpelledFirst bytes.now (record_of p.0) p.1) }
    // Nothing else is spelled there.
    ensures only { (n : ℕ) (r : Record) → SpelledFirst bytes.now r n → IsSomeAnd result (λ p. (record_of p.0 ≡ r) × (p.1 ≡ n)) }
    ensures none { (result ≡ None) ↔ NothingSpelled bytes.now }
{
    let (rec, rest) = record_front(bytes)?;
    Some((rec, bytes.len() - rest.len()))
}

/// The key whose bytes are the first ones, and how many they are.
pub fn decode_key(bytes: &[u8]) -> Option<(KeyRef<'_>, usize)>
    ensures found { IfSome result (λ p. KeySpelledFirst bytes.now (key_of p.0) p.1) }
    // Nothing else is spelled there.
    ensures only { (n : ℕ) (k : Key) → KeySpelledFirst bytes.now k n → IsSomeAnd result (λ p. (key_of p.0 ≡ k) × (p.1 ≡ n)) }
    ensures none { (result ≡ None) ↔ NoKeySpelled bytes.now }
{
    let (key, rest) = key_front(bytes)?;
    Some((key, bytes.len() - rest.len()))
}
