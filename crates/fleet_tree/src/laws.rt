//! What calls make of a manifest, compared with the model.

ghost use Rattle.fleet_tree.specs.Laws.{FlushesAreTheModels};

/// A flush by `ManifestCore::add_flush` changes a manifest as the model's flush changes the model's
/// manifest.
pub fn flushes_are_the_models()
    ensures { FlushesAreTheModels }
{}
