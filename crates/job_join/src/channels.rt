//! The channels of a job, and its scans in which they differ.
ghost use Rattle.std.specs.Prelude.{◌≡◌, ◌∷◌, [], ℕ, List, slice_get, flat_map, option_copied, IfOk, OnOk};
ghost use Rattle.std.specs.List.{list_any, position};
ghost use Rattle.named_list.specs.Named.{names, put};
ghost use Rattle.job_join.specs.{declared.places.Place.{Place}, declared.stands.Here.{Here}, Channels.{first_uses, chan_with, same_side, is_same_band, differ, are_different}};
ghost use Rattle.job_join.specs.Places.{stands_of, visit_of, chans_under, has_other_band, has_unlike_product};

use crate::places::Place;
use crate::stands::Here;
use job_text::Pairs;
use named_list::Named;
use scan_list::{Chan, Pass};
use std::alloc::{AllocError, Global};

// Puts the channels of a product behind those that are there.
fn add(alloc: Global, channels: &mut Named<()>, x: &[u8], y: &[u8]) -> Result<(), AllocError>
    ensures { OnOk result (channels.new ≡ put (put channels.old x.now tt) y.now tt) }
{
    channels.put(alloc, x, ())?;
    channels.put(alloc, y, ())?;
    Ok(())
}

/// The channels of the products, in the order of their first use.
pub(crate) fn channels_of(alloc: Global, products: &Pairs) -> Result<Named<()>, AllocError>
    ensures { IfOk result (λ channels. names channels ≡ first_uses [] (flat_map (λ (p : List ℕ × List ℕ). p.0 ∷ p.1 ∷ []) products.now)) }
{
    let mut channels = Named::new(alloc);
    for i in 0..products.len() {
        let (x, y) = products.at(i);
        add(alloc, &mut channels, x, y)?;
    }
    Ok(channels)
}

/// The channel of a name in a station's part.
pub(crate) fn chan_with<'a>(pass: &'a Pass, name: &[u8]) -> Option<&'a Chan>
    ensures { option_copied result ≡ chan_with pass.now name.now }
{
    pass.chans
        .items()
        .iter()
        .find(|chan| chan.id.bytes() == name)
}

// Two truths that are one.
fn same_side(a: bool, b: bool) -> bool
    ensures { result ≡ same_side a b }
{
    if a { b } else { !b }
}

// Two channels of one frequency, sideband and bandwidth.
fn is_same_band(c: &Chan, d: &Chan) -> bool
    ensures { result ≡ is_same_band c.now d.now }
{
    c.hertz == d.hertz && same_side(c.upper, d.upper) && c.band_hertz == d.band_hertz
}

// Whether both are there, and differ.
fn are_different(c: Option<&Chan>, d: Option<&Chan>) -> bool
    ensures { result ≡ are_different (option_copied c.entry) (option_copied d.entry) }
{
    match (c, d) {
        (Some(c), Some(d)) => !is_same_band(c, d),
        (_, _) => false,
    }
}

// What the first of some stations that has a channel of this name has under it.
fn first_chan<'a>(stands: &'a [Here<'a>], name: &[u8]) -> Option<&'a Chan>
    ensures { option_copied result ≡ slice_get (chans_under (stands_of stands.now) name.now) 0 }
{
    for here in stands {
        let chan = chan_with(here.pass, name);
        if chan.is_some() {
            return chan;
        }
    }
    None
}

// Whether a station has another band under a name than this one.
fn has_another(here: &Here, first: Option<&Chan>, name: &[u8]) -> bool
    ensures { result ≡ are_different (option_copied first.entry) (chan_with here.now.pass.now name.now) }
{
    are_different(first, chan_with(here.pass, name))
}

// Whether one of some stations has another band under a name than this one.
fn have_another(stands: &[Here], first: Option<&Chan>, name: &[u8]) -> bool
    ensures { result ≡ list_any (λ (h : Here). are_different (option_copied first.entry) (chan_with h.pass.now name.now)) stands.now }
{
    stands.iter().any(|here| has_another(here, first, name))
}

// Whether a channel differs at two of some stations.
fn differs(stands: &[Here], name: &[u8]) -> bool
    ensures { result ≡ differ (chans_under (stands_of stands.now) name.now) }
{
    have_another(stands, first_chan(stands, name), name)
}

// Whether a scan is taken, and a channel differs at two of its stations.
fn has_other_band(place: &Place, channels: &Named<()>) -> bool
    ensures { result ≡ has_other_band (names channels.now) (visit_of place.now) }
{
    if !place.taken {
        return false;
    }
    for i in 0..channels.len() {
        let (name, _) = channels.at(i);
        if differs(&place.stands, name) {
            return true;
        }
    }
    false
}

/// The first scan in which a channel differs at two stations.
pub(crate) fn channel_differs(places: &[Place], channels: &Named<()>) -> Option<usize>
    ensures { result ≡ position (λ (p : Place). has_other_band (names channels.now) (visit_of p)) places.now }
{
    places
        .iter()
        .position(|place| has_other_band(place, channels))
}

// Whether the channels of a product differ.
fn is_unlike(stands: &[Here], x: &[u8], y: &[u8]) -> bool
    ensures { result ≡ are_different (slice_get (chans_under (stands_of stands.now) x.now) 0) (slice_get (chans_under (stands_of stands.now) y.now) 0) }
{
    are_different(first_chan(stands, x), first_chan(stands, y))
}

// Whether a scan is taken, and the channels of a product differ.
fn has_unlike_product(place: &Place, products: &Pairs) -> bool
    ensures { result ≡ has_unlike_product products.now (visit_of place.now) }
{
    if !place.taken {
        return false;
    }
    for i in 0..products.len() {
        let (x, y) = products.at(i);
        if is_unlike(&place.stands, x, y) {
            return true;
        }
    }
    false
}

/// The first scan in which the channels of a product differ.
pub(crate) fn product_differs(places: &[Place], products: &Pairs) -> Option<usize>
    ensures { result ≡ position (λ (p : Place). has_unlike_product products.now (visit_of p)) places.now }
{
    places
        .iter()
        .position(|place| has_unlike_product(place, products))
}
