// The table of the images that have begun.
ghost use Rattle.std.specs.Prelude.{◌≡◌, ◌≤◌, [], vec_len, vec_capacity, IfOk, IfSome, MatchOption};
ghost use Rattle.camera_mux.specs.Chains.{AreChained, bucket_of};

use crate::image::{ImageCount, ImageEntry, ImageId};
use std::alloc::{AllocError, Global};
use stream_defs::FateState;

// The most images of a list.
const IMAGES: usize = 4096;

// The error that there is no room for another image.
#[derive(Clone, Copy, Debug, PartialEq, Eq)]
pub struct TableFull;

// The number of buckets of images.
const BUCKETS: usize = 4096;

// The place of no image.
const NONE: u16 = u16::MAX;

// Returns the bucket of an image. Images of one APID that follow one another have different buckets.
fn bucket_of(id: ImageId) -> usize
    ensures { result ≡ bucket_of id }
{
    (521 * u32::from(id.apid) + u32::from(id.image)) as usize % BUCKETS
}

/// The images that have begun, in this order, with what is known of each.
///
/// The images in one bucket are a chain, from the last to the first, so an image is searched among those of its bucket alone.
#[derive(Drop)]
pub struct Table {
    entries: Vec<ImageEntry>,
    // The place of the last image in each bucket.
    last: Vec<u16>,
    // For each image, the place of the image before it in its bucket.
    earlier: Vec<u16>,
    ghost room: { 4096 ≤ vec_capacity entries },
    ghost few: { vec_len entries ≤ 4096 },
    ghost buckets: { vec_len last ≡ 4096 },
    ghost chain_room: { 4096 ≤ vec_capacity earlier },
    ghost chain_size: { vec_len earlier ≡ vec_len entries },
    ghost chained: { AreChained entries.items last.items earlier.items },
}

impl Table {
    ghost use Rattle.camera_mux.specs.Tables.{IsPlace, IsWithin, state_at, count_at, PutsEntry};

    /// Returns a table without an image. It takes memory for 4,096 images, and no call takes more.
    pub fn new(alloc: Global) -> Result<Table, AllocError>
        ensures { IfOk result (λ made. made.entries.items ≡ []) }
    {
        let entries = Vec::with_capacity(alloc, IMAGES)?;
        let last = vec![in alloc; NONE; BUCKETS]?;
        let earlier = Vec::with_capacity(alloc, IMAGES)?;
        Ok(Table {
            entries,
            last,
            earlier,
        })
    }

    /// Returns what is known of each image.
    pub fn entries(&self) -> &[ImageEntry]
        ensures value { result.now ≡ self.now.entries.items }
        ensures few { vec_len self.now.entries ≤ 4096 }
    {
        self.entries.as_slice()
    }

    // Returns the place of an image, if it has begun. Of the images in its bucket those that began later are tried first.
    pub fn place_of(&self, id: ImageId) -> Option<usize>
        ensures { IsPlace self.now.entries.items id result }
    {
        let mut place = usize::from(self.last[bucket_of(id)]);
        while place < self.entries.len() {
            if self.entries[place].id == id {
                return Some(place);
            }
            place = usize::from(self.earlier[place]);
        }
        None
    }

    // Returns the state that the packets of an image leave for the next one's fate.
    pub fn state_at(&self, place: Option<usize>) -> FateState
        requires { IsWithin self.now.entries.items place }
        ensures { result ≡ state_at self.now.entries.items place }
    {
        match place {
            None => FateState {
                geometry: None,
                reported_last: false,
                last: None,
            },
            Some(place) => self.entries[place].state,
        }
    }

    // Returns the counts of the kept packets of an image.
    pub fn count_at(&self, place: Option<usize>) -> ImageCount
        requires { IsWithin self.now.entries.items place }
        ensures { result ≡ count_at self.now.entries.items place }
    {
        match place {
            None => ImageCount {
                packets: 0,
                octets: 0,
                received: 0,
            },
            Some(place) => self.entries[place].count,
        }
    }

    // Puts an entry in the place of its image, or after all others if its image begins.
    pub fn put(&mut self, place: Option<usize>, entry: ImageEntry) -> Result<(), TableFull>
        requires { IsPlace self.old.entries.items entry.id place }
        ensures { PutsEntry self.old.entries.items self.new.entries.items place entry result }
    {
        let Some(place) = place else {
            if self.entries.len() == IMAGES {
                return Err(TableFull);
            }
            let bucket = bucket_of(entry.id);
            self.earlier.push_reserved(self.last[bucket]);
            self.last[bucket] = self.entries.len() as u16;
            self.entries.push_reserved(entry);
            return Ok(());
        };
        self.entries[place] = entry;
        Ok(())
    }
}
