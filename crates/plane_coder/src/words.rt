// The words of a stage, one after another.

ghost use Rattle.std.specs.Prelude.{◌≡◌, ◌≤◌, ◌<◌, ◌+◌, ℕ, [], ◌∷◌, length, set, slice_index_or};
ghost use Rattle.plane_coder.specs.Picked.{ArePacked, no_word};

use crate::plane_masks::Typed;

const NO_WORD: Typed = Typed { pair: 0 };

// Words with the raw bits after each, in the order in which they are sent. Those without a bit are left out.
#[derive(Clone, Copy)]
pub(crate) struct Words<const MOST: usize> {
    list: [Typed; MOST],
    count: usize,
    ghost within: { count ≤ MOST },
    ghost packed: { (i : ℕ) → ArePacked (slice_index_or list i no_word) },
}

impl<const MOST: usize> Words<MOST> {
    ghost use Rattle.plane_coder.specs.Picked.{IsPacked, word_of, raws_of, entries_of};
    ghost use Rattle.plane_coder.specs.Listed.{Lists, entries_at};

    pub fn new() -> Words<MOST>
        ensures { result.count ≡ 0 }
    {
        Words {
            list: [NO_WORD; MOST],
            count: 0,
        }
    }

    #[inline(always)]
    pub fn clear(&mut self)
        ensures { self.new.count ≡ 0 }
    {
        self.count = 0;
    }

    #[inline(always)]
    pub fn count(&self) -> usize
        ensures { result ≡ self.now.count }
    {
        self.count
    }

    #[inline(always)]
    pub fn at(&self, i: usize) -> Typed
        requires { i < self.now.count }
        ensures typed { entries_of result ≡ entries_at self.now.list i }
        ensures packed { ArePacked result }
    {
        self.list[i]
    }

    // Adds a word and the bits after it, unless there are none. They are written in any case, so that no branch is needed.
    #[inline(always)]
    pub fn push(&mut self, typed: Typed)
        requires packed { ArePacked typed }
        requires room { self.old.count < MOST }
        ensures { Lists self.old self.new (entries_of typed) 1 }
    {
        self.list[self.count] = typed;
        self.count += usize::from(typed.pair != 0);
    }

    // Adds a word.
    #[inline(always)]
    pub fn push_word(&mut self, word: u8)
        requires packed { IsPacked word }
        requires room { self.old.count < MOST }
        ensures { Lists self.old self.new (word_of word ∷ []) 1 }
    {
        self.push(Typed::new(word, 0));
    }

    // Adds raw bits.
    #[inline(always)]
    pub fn push_raws(&mut self, raws: u8)
        requires packed { IsPacked raws }
        requires room { self.old.count < MOST }
        ensures { Lists self.old self.new (raws_of raws) 1 }
    {
        self.push(Typed::new(0, raws));
    }
}
