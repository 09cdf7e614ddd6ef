// The text of a run that prelinks everything, or of what one would do.
ghost use Rattle.std.specs.Prelude.{◌≡◌, ◌++◌, IfOk, OnOk, count_by, string_bytes};
ghost use Rattle.std.specs.List.{flat_map};
ghost use Rattle.pl_texts.specs.Reports as spec;

use crate::detail::Detail;
use crate::refusals::skip_text;
use pl_rewrite::{Report, ReportRow, RowState};
use std::alloc::{AllocError, Global};

/// Whether the run prelinks the name.
#[tactic(auto, unfolding(crate::specs::Reports::is_prelinked))]
fn is_prelinked(row: &ReportRow) -> bool
    ensures { result ≡ spec.is_prelinked row.now }
{
    match &row.state {
        RowState::Library { current, .. } => !*current,
        RowState::Program { current, .. } => !*current,
        RowState::Skipped(_) => false,
    }
}

/// Whether the file stays as it is.
#[tactic(auto, unfolding(crate::specs::Reports::is_current))]
fn is_current(row: &ReportRow) -> bool
    ensures { result ≡ spec.is_current row.now }
{
    match &row.state {
        RowState::Library { current, .. } => *current,
        RowState::Program { current, .. } => *current,
        RowState::Skipped(_) => false,
    }
}

/// Whether the name is not prelinked.
#[tactic(auto, unfolding(crate::specs::Reports::is_skipped))]
fn is_skipped(row: &ReportRow) -> bool
    ensures { result ≡ spec.is_skipped row.now }
{
    matches!(&row.state, RowState::Skipped(_))
}

fn count_prelinked(rows: &[ReportRow]) -> usize
    ensures { result ≡ count_by spec.is_prelinked rows.now }
{
    let mut count = 0;
    for row in rows {
        if is_prelinked(row) {
            count += 1;
        }
    }
    count
}

fn count_current(rows: &[ReportRow]) -> usize
    ensures { result ≡ count_by spec.is_current rows.now }
{
    let mut count = 0;
    for row in rows {
        if is_current(row) {
            count += 1;
        }
    }
    count
}

fn count_skipped(rows: &[ReportRow]) -> usize
    ensures { result ≡ count_by spec.is_skipped rows.now }
{
    let mut count = 0;
    for row in rows {
        if is_skipped(row) {
            count += 1;
        }
    }
    count
}

/// What the line of a name begins with.
fn state_word(state: &RowState) -> &'static str
    ensures { result.now ≡ spec.state_word state.now }
{
    match state {
        RowState::Library { current, .. } => if *current { "current" } else { "prelinked" },
        RowState::Program { current, .. } => if *current { "current" } else { "prelinked" },
        RowState::Skipped(_) => "skip",
    }
}

/// The text of a library's slot, 16 hexadecimal digits, and of its stamp.
#[tactic(auto, using(pl_base::proofs::HexLaws::hex16_format), unfolding(crate::specs::Reports::library_text))]
fn library_text(alloc: Global, slot: u64, stamp: u32) -> Result<String, AllocError>
    ensures { IfOk result (λ text. string_bytes text ≡ spec.library_text slot stamp) }
{
    format!(in alloc; "slot {slot:016x} stamp {stamp}")
}

/// The text of how many conflict rows a program has.
#[tactic(auto, unfolding(crate::specs::Reports::program_text))]
fn program_text(alloc: Global, conflicts: u64) -> Result<Vec<u8>, AllocError>
    ensures { IfOk result (λ text. text.items ≡ spec.program_text conflicts) }
{
    Ok(format!(in alloc; "conflicts {conflicts}")?.into_bytes())
}

/// What the line of a name tells after it.
fn state_text(alloc: Global, state: &RowState) -> Result<Vec<u8>, AllocError>
    ensures { IfOk result (λ text. text.items ≡ spec.state_text state.now) }
{
    match state {
        RowState::Library { slot, stamp, .. } => {
            Ok(library_text(alloc, *slot, *stamp)?.into_bytes())
        }
        RowState::Program { conflicts, .. } => program_text(alloc, *conflicts),
        RowState::Skipped(cause) => skip_text(alloc, cause),
    }
}

/// The line of a name.
#[tactic(auto, unfolding(crate::specs::Reports::row_line))]
fn row_line(alloc: Global, row: &ReportRow) -> Result<Vec<u8>, AllocError>
    ensures { IfOk result (λ line. line.items ≡ spec.row_line row.now) }
{
    let (word, name) = (state_word(&row.state), row.name.as_str());
    let text = state_text(alloc, &row.state)?;
    let mut line = format!(in alloc; "{word} {name} ")?.into_bytes();
    line.extend_from_slice(&text)?;
    line.extend_from_slice(b"\n")?;
    Ok(line)
}

fn push_rows(alloc: Global, out: &mut Vec<u8>, rows: &[ReportRow]) -> Result<(), AllocError>
    ensures { OnOk result (out.new.items ≡ out.old.items ++ flat_map spec.row_line rows.now) }
{
    for row in rows {
        let line = row_line(alloc, row)?;
        out.extend_from_slice(&line)?;
    }
    Ok(())
}

/// In full a line for each name.
fn name_lines(alloc: Global, rows: &[ReportRow], detail: Detail) -> Result<Vec<u8>, AllocError>
    ensures { IfOk result (λ text. text.items ≡ spec.name_lines detail rows.now) }
{
    let mut text = Vec::new(alloc);
    match detail {
        Detail::Short => Ok(text),
        Detail::Full => {
            push_rows(alloc, &mut text, rows)?;
            Ok(text)
        }
    }
}

/// The line of how many names are prelinked, current and skipped.
#[tactic(auto, unfolding(crate::specs::Reports::counts_line))]
fn counts_line(alloc: Global, rows: &[ReportRow]) -> Result<String, AllocError>
    ensures { IfOk result (λ line. string_bytes line ≡ spec.counts_line rows.now) }
{
    let prelinked = count_prelinked(rows);
    let current = count_current(rows);
    let skipped = count_skipped(rows);
    format!(in alloc; "done {prelinked} prelinked {current} current {skipped} skipped\n")
}

/// The text of a report: in full a line for each name, and then how many names are prelinked, current and skipped.
#[tactic(auto, unfolding(crate::specs::Reports::report_text))]
pub fn report_text(alloc: Global, report: &Report, detail: Detail) -> Result<Vec<u8>, AllocError>
    ensures { IfOk result (λ text. text.items ≡ spec.report_text detail report.now) }
{
    let rows = report.rows.as_slice();
    let mut text = name_lines(alloc, rows, detail)?;
    let counts = counts_line(alloc, rows)?;
    text.extend_from_slice(counts.as_bytes())?;
    Ok(text)
}
