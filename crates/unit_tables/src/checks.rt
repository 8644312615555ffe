// Check 3 over the owners: what all of them have is joined word by word, without an exit, so that the compiler vectorises the loop, and tested at the end.
ghost use Rattle.std.specs.Prelude.{◌≡◌, ℕ, ◌+◌, length, get_or};
ghost use Rattle.tables.specs.Below.{all_below};
ghost use Rattle.units.specs.Owners.{owner_ok};
ghost use Rattle.unit_tables.specs.View.{Limits, mark_plus};
ghost use Rattle.unit_tables.specs.Seen.{SeenBelow};

// Unions over owners: RCID and AT, and the MCID, each with what lacks to the end of its field added; the mark of an owner likewise; all words.
#[derive(Drop)]
pub struct Seen {
    pub rcids_ats: u32,
    pub mcids: u32,
    pub marks: u32,
    pub whole: u32,
}

// Bit 20 of it is set where the low 20 bits of a word are neither 0 nor owned; a comparison here would keep the compiler from loading a word of bytes at once.
fn mark_plus(owner: u32) -> u32
    ensures { result ≡ mark_plus owner }
{
    (((owner & 0xfffff) + 0x80000) & 0xfffff) + 0x7ffff
}

// Of no owner.
pub fn none_seen() -> Seen
    ensures { (nr nm na : ℕ) (f : ℕ → ℕ) → SeenBelow nr nm na 0 f result }
{
    Seen {
        rcids_ats: 0,
        mcids: 0,
        marks: 0,
        whole: 0,
    }
}

// With one owner more.
pub fn with_owner(seen: Seen, owner: u32, nr: u32, nm: u32, na: u32) -> Seen
    requires { Limits nr nm na }
    ensures { (n : ℕ) (f : ℕ → ℕ) → SeenBelow nr nm na n f seen → owner ≡ f n → SeenBelow nr nm na (n + 1) f result }
{
    let rcid_at = (256 - nr) + (8 - na) * 65536;
    let mcid = (256 - nm) * 256;
    Seen {
        rcids_ats: seen.rcids_ats | ((owner & 0x700ff) + rcid_at),
        mcids: seen.mcids | ((owner & 0xff00) + mcid),
        marks: seen.marks | mark_plus(owner),
        whole: seen.whole | owner,
    }
}

// Whether each is well formed: what is out of range carried into the bit above its field.
pub fn seen_ok(seen: Seen, nr: u32, nm: u32, na: u32) -> bool
    requires { Limits nr nm na }
    ensures { (n : ℕ) (f : ℕ → ℕ) → SeenBelow nr nm na n f seen → result ≡ all_below n (λ i. owner_ok nr nm na (f i)) }
{
    ((seen.rcids_ats >> 8) % 2 == 0)
        & ((seen.rcids_ats >> 19) % 2 == 0)
        & ((seen.mcids >> 16) % 2 == 0)
        & ((seen.marks >> 20) % 2 == 0)
        & (seen.whole >> 20 == 0)
}

// Whether every owner is well formed.
pub fn owners_ok(owners: &[u32], nr: u32, nm: u32, na: u32) -> bool
    requires { Limits nr nm na }
    ensures { result ≡ all_below (length owners.now) (λ i. owner_ok nr nm na (get_or owners.now i 0)) }
{
    let mut seen = none_seen();
    for owner in owners {
        seen = with_owner(seen, *owner, nr, nm, na);
    }
    seen_ok(seen, nr, nm, na)
}
