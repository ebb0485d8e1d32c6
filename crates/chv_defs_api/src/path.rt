// Paths of disks, and URLs of snapshots.
ghost use Rattle.std.specs.Prelude.{◌≡◌};
ghost use Rattle.chv_defs_api.specs.ConfigRules as rules;

/// What follows the last `/` of a path, or the whole path where there is none. It is the name of a disk or a snapshot.
pub fn last_component(path: &str) -> &str
    ensures { result.now ≡ rules.last_component path.now }
{
    match path.rsplit_once('/') {
        Some((_, last)) => last,
        None => path,
    }
}
