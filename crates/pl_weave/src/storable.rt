// Rows whose files a folder gives.
ghost use Rattle.std.specs.Prelude.{◌≡◌};
ghost use Rattle.std.specs.List.{list_any};
ghost use Rattle.pl_weave.specs.Runs as spec;

use pl_base::Rows;
use pl_change::Cause;
use pl_folder::STORED;
use pl_journal::Change;

/// Whether the file of a row is longer than a folder gives.
fn is_large(row: &Change) -> bool
    ensures { result ≡ spec.is_large row.now }
{
    match row {
        Change::Put { name: _, bytes } => bytes.len() > STORED,
        Change::Drop { name: _ } => false,
    }
}

fn any_large(rows: &[Change]) -> bool
    ensures { result ≡ list_any spec.is_large rows.now }
{
    rows.iter().any(|row| is_large(row))
}

/// The rows, where a folder gives each of their files.
pub(crate) fn storable(rows: Rows<Change>) -> Result<Rows<Change>, Cause>
    ensures { result ≡ spec.storable rows }
{
    if any_large(rows.as_slice()) {
        return Err(Cause::FolderTooLarge);
    }
    Ok(rows)
}
