// The call that checks listings alone.
ghost use Rattle.std.specs.Prelude.{◌≡◌, true, ◌&&◌};
ghost use Rattle.rules.specs.Checks.{shape_in, values_long, listings_long};
ghost use Rattle.rules.specs.Listing.{check_listings};

use rules::{Checked, Shape};

fn both_long(shape: Shape, values: &[f64], listings: &[u32]) -> bool
    requires { shape_in shape ≡ true }
    ensures { result ≡ (values_long shape values.now && listings_long shape listings.now) }
{
    crate::values_long(shape, values) && crate::listings_long(shape, listings)
}

// Each listing has each row once, and along it no value falls: refusals 1, 2, and 11 to 13 with the place.
pub fn check_listings(shape: Shape, values: &[f64], listings: &[u32]) -> Checked
    ensures { result ≡ check_listings shape values.now listings.now }
{
    crate::need(1, crate::shape_in(shape))?;
    crate::need(2, both_long(shape, values, listings))?;
    listings::first_fault(shape, values, listings)
}
