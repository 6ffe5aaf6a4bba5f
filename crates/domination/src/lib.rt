// Dropping the transitions of a state that another one dominates: in place, among packed terms and their bytes.
#![tactic(auto)]

ghost use Rattle.std.specs.Prelude.{◌≡◌, map, ℕ, length};
ghost use Rattle.sets.specs.Sets.{any};
ghost use Rattle.domination.specs.Memory.{dominates_byte, dominates_n, Sorted, Drops};

// Whether u, which fulfils the untils in more, dominates t, which fulfils those in byte.
fn dominates(u: u64, more: u8, t: u64, byte: u8) -> bool
    ensures { result ≡ dominates_byte u more t byte }
{
    u != t && (u | t) == t && (byte | more) == more
}

// Whether one of ts, whose untils the bytes tell, dominates t, which fulfils those in byte.
fn dominated(ts: &[u64], bytes: &[u8], t: u64, byte: u8) -> bool
    requires { length bytes.now ≡ length ts.now }
    ensures { (untils : ℕ → ℕ) → bytes.now ≡ map untils ts.now → byte ≡ untils t
        → result ≡ any (λ u. dominates_n untils u t) ts.now }
{
    ts.iter()
        .zip(bytes)
        .any(|(u, more)| dominates(*u, *more, t, byte))
}

// Of ts, which rise, those that none of them dominates, moved to the front with their bytes; how many they are. What
// dominates a term is a lower number, and among all that dominate it there is one that stays: so a term is held
// against those kept before it, and against no others.
pub fn drop_dominated(ts: &mut [u64], bytes: &mut [u8]) -> usize
    requires { Sorted ts.old bytes.old (length ts.old) }
    ensures { Drops ts.old bytes.old (length ts.old) ts.new bytes.new result }
{
    let mut kept = 0;
    for i in 0..ts.len() {
        let t = ts[i];
        let byte = bytes[i];
        let dropped = dominated(&ts[..kept], &bytes[..kept], t, byte);
        ts[kept] = t;
        bytes[kept] = byte;
        kept += usize::from(!dropped);
    }
    kept
}
