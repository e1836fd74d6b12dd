// The units by word. A chain for each bucket leads from the last unit of the bucket to the first, so that a word is found in a few steps.
ghost use Rattle.std.specs.Prelude.{◌≡◌, List, [], ℕ, ◌<◌, ◌≤◌, length, Some, None, IfSome};
ghost use Rattle.fields.specs.Pick.{pick, has};
ghost use Rattle.fields.specs.Edition.{one};
ghost use Rattle.fields.specs.Record.{word_of};
ghost use Rattle.records.specs.Units.{number_in};
ghost use Rattle.records.specs.Outcome.{laid};
ghost use Rattle.records.specs.Mirror.{bucket_of, Low, Chained};

use crate::notes::Notes;

// A unit as one word.
#[tactic(auto, unfolding(fields::specs::Record::word_of))]
pub fn word_of(shape: u8, id: u16, offset: u16) -> u32
    requires { id < 256 }
    ensures { result ≡ word_of one shape id offset }
{
    (shape as u32) * 16777216 + (id as u32) * 65536 + offset as u32
}

// Lanes of one storage and storages of one lane fall into different buckets.
#[tactic(auto, unfolding(crate::specs::Mirror::bucket_of))]
pub fn bucket_of(word: u32) -> usize
    ensures { (result ≡ bucket_of word) × (result < 256) }
{
    ((word % 256 + word / 65536 % 256 * 37) % 256) as usize
}

impl Notes<'_> {
    // The number of a unit's word.
    #[tactic(auto, using(crate::proofs::Chains::seek_found, crate::proofs::Chains::seek_none))]
    #[inline(always)]
    pub fn find(&self, word: u32) -> Option<usize>
        requires { (length self.now.words.now ≡ 512) × Low self.now.heads self.now.nexts }
        ensures low { IfSome result (λ number. number < 512) }
        ensures found { (us : List ℕ) → length us ≤ 512 → self.now.words.now ≡ laid 512 us [] → Chained us self.now.heads self.now.nexts
            → result ≡ pick (has word us) (Some (number_in word us)) None }
    {
        let mut next = self.heads[bucket_of(word)] as usize;
        while next != 0 {
            if self.words[next - 1] == word {
                return Some(next - 1);
            }
            next = self.nexts[next - 1] as usize;
        }
        None
    }
}
