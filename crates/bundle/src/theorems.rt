// What holds of packing and reading, for all bundles. The function stands for the theorem that is
// its contract, and does nothing else.
ghost use Rattle.bundle.specs.Bundles.{PackedBundleIsAccepted};

// A bundle of one to eight packed tracks within 60,000 bytes has no fault, and says just what was
// packed: the reader does not fault everything.
#[tactic(auto, using(crate::proofs::BundleLaws::packed_bundle_is_accepted))]
pub fn packed_bundle_is_accepted()
    ensures { PackedBundleIsAccepted }
{}
