//! How many balancing groups there are.
ghost use Rattle.fp_model.specs.WellFormed.{AreGroups};
ghost use Rattle.std.specs.Prelude.{◌≡◌, ◌≤◌, fold, length, max};

/// How many balancing groups there are where these are the regions' groups: as many as the greatest number says.
pub fn group_count(regions: &[u8]) -> u8
    ensures count { result ≡ fold max 0 regions.now }
    ensures bounds { 1 ≤ length regions.now → AreGroups regions.now → (1 ≤ result) × (result ≤ 16) }
{
    let mut most = 0;
    for group in regions {
        most = (*group).max(most);
    }
    most
}
