// A chain of links (LANGUAGE 3.2) in one number: base 3 with the digits 1, 2 and 3, the first link lowest. Each number
// is exactly one chain, so equal chains are equal numbers, no length is kept, and every number in the table is a chain.
ghost use Rattle.std.specs.Prelude.{◌≡◌, true, ◌∷◌, ◌≤◌, ◌+◌, ◌*◌, length, take};
ghost use Rattle.statics.specs.Links.{leading_boxes, no_shared, last_shared, is_number, copies};
ghost use Rattle.variables.specs.Chains.{as_link, link_of, chain_of, IsSplit, as_rest, rest_of, as_passed, one_more_fits};

// A link (LANGUAGE 3.2), with its digit.
#[derive(Clone, Copy, Debug, PartialEq, Eq)]
pub enum Link {
    Box = 1,
    Shared = 2,
    Exclusive = 3,
}

// The chains of at most 7 links are the numbers below this (8 links are the most, LANGUAGE 3.2).
const FULL: u32 = 3280;

// The type of plain numbers (LANGUAGE 3.2).
pub fn is_number(links: u32) -> bool
    ensures { result ≡ is_number (chain_of links) }
{
    links == 0
}

// The link with this digit less one.
fn link_of(digit: u32) -> Link
    ensures { as_link result ≡ link_of digit }
{
    match digit {
        0 => Link::Box,
        1 => Link::Shared,
        _ => Link::Exclusive,
    }
}

// The first link of the chain, and the chain after it, one position further (LANGUAGE 3.5).
pub fn split_first(links: u32) -> Option<(Link, u32)>
    ensures { IsSplit links result }
{
    if links == 0 {
        return None;
    }
    Some((link_of((links - 1) % 3), (links - 1) / 3))
}

// What may be copied (37; LANGUAGE 3.19): a number, or a first link shared.
pub fn is_copied(links: u32) -> bool
    ensures { result ≡ copies (chain_of links) }
{
    match split_first(links) {
        None => true,
        Some((link, _)) => link == Link::Shared,
    }
}

// How many links the chain has (32; LANGUAGE 3.16).
pub fn chain_length(links: u32) -> usize
    ensures { (result ≡ length (chain_of links)) × (result ≤ links) }
{
    let mut rest = links;
    let mut count = 0;
    while let Some((_, after)) = split_first(rest) {
        rest = after;
        count += 1;
    }
    count
}

// The boxes before the first borrow link: the last own position (LANGUAGE 3.9).
pub fn leading_boxes(links: u32) -> usize
    ensures { (result ≡ leading_boxes (chain_of links)) × (result * 2 ≤ links + 1) }
{
    let mut rest = links;
    let mut count = 0;
    while let Some((link, after)) = split_first(rest) {
        if link != Link::Box {
            return count;
        }
        rest = after;
        count += 1;
    }
    count
}

// The chain at position k (LANGUAGE 3.5), where k links come before; otherwise it is too short (32).
pub fn links_from(links: u32, k: usize) -> Option<u32>
    ensures { as_rest result ≡ rest_of k (chain_of links) }
{
    let mut rest = links;
    for _ in 0..k {
        let (_, after) = split_first(rest)?;
        rest = after;
    }
    Some(rest)
}

// The last shared link before link k, if there is one: how many links come before it (LANGUAGE 3.21).
pub fn last_shared(links: u32, k: usize) -> Option<usize>
    ensures { as_passed result ≡ last_shared (take k (chain_of links)) }
{
    let mut rest = links;
    let mut last = None;
    for passed in 0..k {
        let Some((link, after)) = split_first(rest) else {
            return last;
        };
        if link == Link::Shared {
            last = Some(passed);
        }
        rest = after;
    }
    last
}

// Only boxes and exclusive links before link k (36; LANGUAGE 3.22, 3.25).
pub fn no_shared(links: u32, k: usize) -> bool
    ensures { result ≡ no_shared (take k (chain_of links)) }
{
    last_shared(links, k).is_none()
}

// One more link makes at most 8 (42; LANGUAGE 3.21 to 3.23).
pub fn one_more_fits(links: u32) -> bool
    ensures { result ≡ one_more_fits links }
{
    links < FULL
}

// The chain with one more link in front (LANGUAGE 3.21 to 3.23).
pub fn with_first(link: Link, links: u32) -> u32
    requires { one_more_fits links ≡ true }
    ensures { chain_of result ≡ as_link link ∷ chain_of links }
{
    links * 3 + link as u32
}
