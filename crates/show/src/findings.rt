//! What was found of each formula row.
use crate::rows_in_words::FormulaWords;
use rows::fields::FormulaFields;
use rows::route::Route;
use rows::rows::FormulaRow;

/// Prints what the report's field of a row says.
fn print_finding(rt: &HostRuntime, field: [u8; 10]) -> anyhow::Result<()> {
    let [_, _, _, _, route, r1, r0, verdict, t1, t0] = field;
    let way = match Route::try_from(route) {
        Ok(Route::Direct) => "directly",
        _ => "by translation",
    };
    let rounds = u16::from_be_bytes([r1, r0]);
    let states = u16::from_be_bytes([t1, t0]);
    let said = if verdict == 1 { "YES" } else { "NO" };
    println!(rt; "      {said} at the start, yes at {states} states; rounds: {rounds}, {way}")?;
    Ok(())
}

/// Prints the formula rows, five bytes to each, and the report's fields, ten bytes to each after the first six.
pub fn print_findings(rt: &HostRuntime, body: &[u8], report: &[u8]) -> anyhow::Result<()> {
    println!(rt; "Formulas:")?;
    let (rows, _) = body.as_chunks::<5>();
    let (fields, _) = report.get(6..).unwrap_or(&[]).as_chunks::<10>();
    for (k, (bytes, field)) in rows.iter().zip(fields).enumerate() {
        let Ok(row) = FormulaRow::try_from(FormulaFields::from(*bytes)) else {
            continue;
        };
        println!(rt; "  f{k}: {}", FormulaWords(row))?;
        print_finding(rt, *field)?;
    }
    Ok(())
}
