ghost use Rattle.std.specs.Prelude.{◌≡◌, ◌≤◌, ◌+◌, length, take, drop, slice_index, IfOk, IsTrue};
ghost use Rattle.dfs_record.specs.Name.{is_between, is_snap_name};
ghost use Rattle.dfs_registry.specs.Body.{body_size, fields, has_body, has_front, is_listable};

use crate::Listed;
use crate::format::{BODY_LEN, COUNTED_LEN, GREATEST_JOB, PUBLICATION};
use dfs_record::{NameFault, NoMemory, SnapName, is_snap_name_text, read_u16, read_u32, read_u64};
use std::alloc::Global;

// Whether a whole body stands at the front.
pub fn has_body(bytes: &[u8]) -> bool
    ensures { result ≡ has_body bytes.now }
{
    if bytes.len() < BODY_LEN || bytes.len() < BODY_LEN + bytes[3] as usize {
        return false;
    }
    has_front(bytes) && has_listable(bytes)
}

#[tactic(auto, using(crate::proofs::Numbers::in_two))]
fn has_front(bytes: &[u8]) -> bool
    requires { 28 ≤ length bytes.now }
    ensures { result ≡ has_front bytes.now }
{
    read_u16(bytes) == Some(COUNTED_LEN + u16::from(bytes[3])) && bytes[2] == PUBLICATION
}

#[tactic(auto, using(crate::proofs::Numbers::in_four), unfolding(crate::specs::Body::fields))]
fn has_listable(bytes: &[u8]) -> bool
    requires { body_size (slice_index bytes.now 3) ≤ length bytes.now }
    ensures { result ≡ is_listable (fields bytes.now) }
{
    let name_len = bytes[3] as usize;
    is_snap_name_text(&bytes[4..4 + name_len])
        && read_u32(&bytes[4 + name_len..]).is_some_and(|job| is_job(job))
}

fn is_job(job: u32) -> bool
    ensures { result ≡ is_between 1 4294967294 job }
{
    1 <= job && job <= GREATEST_JOB
}

// The body that stands at the front.
pub fn read_fields(alloc: Global, bytes: &[u8]) -> Result<Listed, NoMemory>
    requires whole { body_size (slice_index bytes.now 3) ≤ length bytes.now }
    requires name { IsTrue (is_snap_name (take (slice_index bytes.now 3) (drop 4 bytes.now))) }
    ensures { IfOk result (λ b. b ≡ fields bytes.now) }
{
    let name_len = bytes[3] as usize;
    let name = match SnapName::new(alloc, &bytes[4..4 + name_len]) {
        Ok(name) => name,
        Err(NameFault::NoMemory) => return Err(NoMemory),
        Err(NameFault::Bad) => unreachable!(),
    };
    let (Some(job), Some(at), Some(len), Some(count)) = (
        read_u32(&bytes[4 + name_len..]),
        read_u64(&bytes[8 + name_len..]),
        read_u32(&bytes[16 + name_len..]),
        read_u64(&bytes[20 + name_len..]),
    ) else {
        unreachable!()
    };
    Ok(Listed {
        name,
        job,
        at,
        len,
        count,
    })
}
