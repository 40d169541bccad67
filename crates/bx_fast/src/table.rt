//! Tables of plain items that are read and written at any place: one outside of a table reads as what
//! the caller names, and is not written. Who keeps a table knows its places; nothing rests on that but
//! how well a search goes.

/// The item at a place, or the other one outside of the table.
pub(crate) fn at<T: Copy>(table: &[T], place: u32, otherwise: T) -> T {
    match table.get(place as usize) {
        Some(item) => *item,
        None => otherwise,
    }
}

/// Writes the item at a place. Outside of the table nothing is written.
pub(crate) fn put<T: Copy>(table: &mut [T], place: u32, item: T) {
    if let Some(held) = table.get_mut(place as usize) {
        *held = item;
    }
}

/// The items of a range of places, or none where the range isn't within the table.
pub(crate) fn part<T>(table: &[T], start: u32, count: u32) -> &[T] {
    table
        .get(start as usize..start as usize + count as usize)
        .unwrap_or(&[])
}

/// A count of items as a place behind them. No table here is as long as the greatest place.
pub(crate) fn place_of(count: usize) -> u32 {
    count.min(u32::MAX as usize) as u32
}
