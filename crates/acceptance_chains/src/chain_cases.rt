//! Texts of given units.
use line_text::LineText;
use points::Units;
use std::alloc::Global;
use std::test::Fail;

pub(crate) fn text_of(alloc: Global, units: &[u16]) -> Result<LineText, Fail> {
    let mut list = Units::new(alloc);
    list.append(units)?;
    Ok(LineText::from_units(list)?)
}
