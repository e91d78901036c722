// A model file field by field: a number, the header, a node. Each says something and where the next field is, or is misread by some refusal.
#![tactic(auto)]

ghost use Rattle.std.specs.Prelude.{◌≡◌, Bool, ℕ, ◌≤◌, ◌<◌};
ghost use Rattle.rules.specs.Lent.{leaf_entry};
ghost use Rattle.rules.specs.Checks.{within};
ghost use Rattle.rules.specs.Model.{field, float_at, child_good, header_in, node_at};
ghost use Rattle.fields.specs.Fields.{Tests, taken, number_field, header_field, node_field, node_entry, split_from};

use node_entries::NodeEntry;
use rules::Misread;

// What a field says, and the place of the next one. Each function takes the bytes and a place, and has no reader that moves on: that would leave two values
// to speak of, and so two equations in place of one in each contract. A misread field's number is the C interface's.
pub type Read<T> = Result<(T, usize), Misread>;

#[derive(Clone, Copy)]
pub struct Header {
    pub features: u32,
    pub trees: u32,
}

// ---- numbers

// The number that k bytes say, whatever it is.
fn take(bytes: &[u8], at: usize, k: usize) -> Read<u64>
    requires { k ≤ 8 }
    ensures { result ≡ taken bytes.now k at }
{
    let n = bytes.len();
    // the sum of at and k might not fit
    if k <= n && at <= n - k {
        Ok((bits::number_at(bytes, at, k), at + k))
    } else {
        Err(Misread {
            number: 14,
            place: at,
        })
    }
}

// A number that has to be good.
pub fn number_in<F: Fn(u64) -> bool>(
    bytes: &[u8],
    at: usize,
    k: usize,
    number: u32,
    good: F,
) -> Read<u64>
    ghost passes: { ℕ → Bool }
    requires few { k ≤ 8 }
    requires callable { F.IsAlwaysCallable good }
    requires tests { Tests (F.post good) passes }
    ensures { result ≡ number_field (field bytes.now k number passes at) }
{
    let (x, next) = take(bytes, at, k)?;
    if good(x) {
        Ok((x, next))
    } else {
        Err(Misread { number, place: at })
    }
}

// A float's pattern.
pub fn pattern_in(bytes: &[u8], at: usize) -> Read<u64>
    ensures { result ≡ number_field (float_at bytes.now at) }
{
    number_in(bytes, at, 8, 16, bits::pattern_good)
}

// Child 0 is none.
#[tactic(auto, using(std::proofs::lemmas::Bool::Decides::nat_tests), unfolding(rules::specs::Model::child_good))]
fn child_good(n: usize, k: usize, y: u64) -> bool
    ensures { result ≡ child_good n k y }
{
    let child = y as usize;
    // not `child < n.saturating_sub(1)`, with which a check of a file takes a tenth longer
    child == 0 || (k < child && child < n && child + 1 < n)
}

// The true child of node k in a tree of n nodes.
pub fn child_in(bytes: &[u8], n: usize, k: usize, at: usize) -> Read<u64>
    ensures { result ≡ number_field (field bytes.now 4 16 (child_good n k) at) }
{
    number_in(bytes, at, 4, 16, |y| child_good(n, k, y))
}

// ---- the header

// As many features or trees as a forest may have.
#[tactic(auto, unfolding(rules::specs::Checks::within))]
fn few(n: u64) -> bool
    ensures { result ≡ within 1024 n }
{
    1 <= n && n <= 1024
}

// Mark and version, then features and trees.
pub fn header_in(bytes: &[u8]) -> Read<Header>
    ensures { result ≡ header_field (header_in bytes.now) }
{
    let (_mark, version_at) = number_in(bytes, 0, 3, 15, |x| x == 0x464752)?;
    let (_version, features_at) = number_in(bytes, version_at, 2, 15, |x| x == 1)?;
    let (features, trees_at) = number_in(bytes, features_at, 2, 16, few)?;
    let (trees, end) = number_in(bytes, trees_at, 2, 16, few)?;
    let header = Header {
        features: features as u32,
        trees: trees as u32,
    };
    Ok((header, end))
}

// ---- a node

fn leaf_of(value: f64) -> NodeEntry
    ensures { result ≡ node_entry (leaf_entry value) }
{
    NodeEntry {
        value,
        feature: 0,
        threshold: 0.0,
        score: 0.0,
        truechild: 0,
        falsechild: 0,
    }
}

// What a split says after its child.
fn split_in(bytes: &[u8], features: usize, value: f64, child: u32, at: usize) -> Read<NodeEntry>
    requires child_below { child < 4294967295 }
    requires features_below { features ≤ 4294967295 }
    ensures { result ≡ node_field (split_from bytes.now features value child at) }
{
    let high = features as u64;
    let (feature, threshold_at) = number_in(bytes, at, 2, 16, |j| j < high)?;
    let (threshold, score_at) = pattern_in(bytes, threshold_at)?;
    let (score, end) = pattern_in(bytes, score_at)?;
    let entry = NodeEntry {
        value,
        feature: feature as u32,
        threshold: bits::float_of(threshold),
        score: bits::float_of(score),
        truechild: child,
        falsechild: child + 1,
    };
    Ok((entry, end))
}

// Node k of a tree of n nodes.
pub fn node_in(bytes: &[u8], features: usize, n: usize, k: usize, at: usize) -> Read<NodeEntry>
    requires nodes_below { n ≤ 4294967295 }
    requires features_below { features ≤ 4294967295 }
    ensures { result ≡ node_field (node_at bytes.now features n k at) }
{
    let (pattern, child_at) = pattern_in(bytes, at)?;
    let (child, end) = child_in(bytes, n, k, child_at)?;
    let value = bits::float_of(pattern);
    if child == 0 {
        Ok((leaf_of(value), end))
    } else {
        split_in(bytes, features, value, child as u32, end)
    }
}
