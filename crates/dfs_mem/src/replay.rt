ghost use Rattle.std.specs.Prelude.{◌≡◌, ◌==◌, ℕ, if◌then◌else◌, IfOk, OnOk, IsTrue};
ghost use Rattle.dfs_host.specs.Disk.{settled_file};
ghost use Rattle.dfs_mem.specs.Deeds.{deeds_until};
ghost use Rattle.dfs_mem.specs.Files.{bytes_in, numbers_differ};
ghost use Rattle.dfs_mem.specs.Images.{image_of};
ghost use Rattle.dfs_mem.specs.Track.{track_at, file_step, file_after};

use crate::choice::Choice;
use crate::deed::{Deed, Kept};
use crate::track::{Track, file_number};
use std::alloc::{AllocError, Global};
use std::collections::HashMap;

// The track of each file that was given or made.
pub type Tracks = HashMap<u32, Track>;

// The files that are given, with nothing touched.
fn started(alloc: Global, given: &[(u32, Vec<u8>)]) -> Result<Tracks, AllocError>
    requires { IsTrue (numbers_differ given.now) }
    ensures { IfOk result (λ tracks. (n : ℕ) → track_at tracks n ≡ settled_file (bytes_in given.now n)) }
{
    let mut tracks = HashMap::new(alloc);
    for (number, bytes) in given {
        let track = Track::new(alloc, bytes)?;
        tracks.insert(*number, track)?;
    }
    Ok(tracks)
}

// Follows a deed as the file of this number, which is made if it is missing.
fn follow_file(
    tracks: &mut Tracks,
    alloc: Global,
    number: u32,
    deed: &Deed,
) -> Result<(), AllocError>
    ensures { OnOk result ((n : ℕ) → track_at tracks.new n ≡ (if n == number then file_step number deed.now (track_at tracks.old number) else track_at tracks.old n)) }
{
    if let Some(track) = tracks.get_mut(&number) {
        return track.follow(alloc, number, deed);
    }
    let mut track = Track::new(alloc, &[])?;
    track.follow(alloc, number, deed)?;
    tracks.insert(number, track)?;
    Ok(())
}

// Follows a deed.
fn follow(tracks: &mut Tracks, alloc: Global, deed: &Deed) -> Result<(), AllocError>
    ensures { OnOk result ((n : ℕ) → track_at tracks.new n ≡ file_step n deed.now (track_at tracks.old n)) }
{
    match file_number(deed) {
        Some(number) => {
            follow_file(tracks, alloc, number, deed)?;
            Ok(())
        }
        None => Ok(()),
    }
}

// All files after the deeds of the first `moment` calls, where these were there at first.
pub fn tracks_until(
    alloc: Global,
    given: &[(u32, Vec<u8>)],
    deeds: &[Kept],
    moment: u64,
) -> Result<Tracks, AllocError>
    requires { IsTrue (numbers_differ given.now) }
    ensures { IfOk result (λ tracks. (n : ℕ) → track_at tracks n ≡ file_after n (deeds_until moment deeds.now) (settled_file (bytes_in given.now n))) }
{
    let mut tracks = started(alloc, given)?;
    for kept in deeds {
        if kept.call > moment {
            return Ok(tracks);
        }
        follow(&mut tracks, alloc, &kept.deed)?;
    }
    Ok(tracks)
}

// The image of each file.
pub fn images_of(
    alloc: Global,
    tracks: &Tracks,
    choice: Choice,
) -> Result<Vec<(u32, Vec<u8>)>, AllocError>
    ensures differ { IfOk result (λ images. IsTrue (numbers_differ images.items)) }
    ensures bytes { IfOk result (λ images. (n : ℕ) → bytes_in images.items n ≡ image_of choice (track_at tracks.now n)) }
{
    let mut images = Vec::new(alloc);
    for (number, track) in tracks {
        let bytes = track.image(alloc, choice)?;
        images.push((*number, bytes))?;
    }
    Ok(images)
}
