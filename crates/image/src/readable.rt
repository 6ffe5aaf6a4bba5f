ghost use Rattle.std.specs.Prelude.{ℕ, ◌≡◌, ◌+◌, ◌*◌, ◌<◌, ◌≤◌, length};
ghost use Rattle.answer.specs.Bytes.{number_at};
ghost use Rattle.automaton.specs.Limits.{max_states};
ghost use Rattle.image.specs.Image.{image_length, states_body, transitions_body, initial_body};
ghost use Rattle.image.specs.Reader.{counts_at, count_sum};
ghost use Rattle.image.specs.Lookup.{RestByte};

use automaton::Counts;

// An image whose records can be looked up, as those can be that 10 to 13 do not refuse: its bytes, and the counts that
// they say. The ghost fields are the facts of `Readable`.
#[derive(Clone, Copy)]
pub struct Image<'a> {
    pub bytes: &'a [u8],
    pub counts: Counts,
    pub ghost counted: { counts ≡ counts_at bytes.now },
    pub ghost few: { (counts_at bytes.now).states ≤ max_states },
    pub ghost size: { length bytes.now ≡ image_length (counts_at bytes.now) },
    pub ghost sum: { count_sum (states_body bytes.now) (counts_at bytes.now).states
        ≡ (counts_at bytes.now).transitions },
    pub ghost rests: { (q : ℕ) → q < (counts_at bytes.now).states → RestByte bytes.now q },
    pub ghost targets: { (i : ℕ) → i < (counts_at bytes.now).transitions
        → number_at (transitions_body (counts_at bytes.now) bytes.now) (4 * i + 2) < (counts_at bytes.now).states },
    pub ghost starts: { (i : ℕ) → i < (counts_at bytes.now).initial
        → number_at (initial_body (counts_at bytes.now) bytes.now) (2 * i) < (counts_at bytes.now).states },
}
