use super::{Left, left_of};
use st_base::{WantOfMemory, read_number};
use st_vault::OpenRefused;
use std::alloc::Global;
use std::test::Fail;

/// Writes a byte, if there is such a place.
fn set(image: &mut [u8], place: u32, byte: u8) {
    let place = place as usize;
    if place < image.len() {
        image[place] = byte;
    }
}

// The length of an image, its gate, its one-time type and tree type, and two places with nonzero
// bytes, if the image has such places. Then the number of remaining counters, or what else the
// image is.
const IMAGES: &str = "0 165 2 5 2000 2000 blank
63 165 2 5 2000 2000 blank
96 0 2 5 64 65 blank
96 164 2 5 2000 2000 blank
64 165 0 0 2000 2000 damaged
95 165 2 5 2000 2000 damaged
96 165 0 5 2000 2000 damaged
96 165 5 5 2000 2000 damaged
96 165 2 4 2000 2000 damaged
96 165 2 7 2000 2000 damaged
1087 165 2 6 2000 2000 damaged
96 165 1 5 2000 2000 32
97 165 3 5 60 96 32
96 165 2 5 64 2000 31
96 165 2 5 67 71 24
96 165 2 5 95 64 0";

fn is_told(left: Left, told: &str) -> bool {
    match left {
        Ok(left) => read_number(told.as_bytes(), 1024) == Some(left),
        Err(OpenRefused::Blank) => told == "blank",
        Err(OpenRefused::Damaged) => told == "damaged",
        Err(OpenRefused::DiskFault) => false,
    }
}

/// The image of a line.
fn image_of(alloc: Global, numbers: &[u32]) -> Result<Vec<u8>, WantOfMemory> {
    match numbers {
        [len, gate, ots, tree, first, second] => {
            let mut image = vec![in alloc; 0u8; *len as usize]?;
            set(&mut image, 0, gate.to_le_bytes()[0]);
            set(&mut image, 4, ots.to_le_bytes()[0]);
            set(&mut image, 8, tree.to_le_bytes()[0]);
            set(&mut image, *first, 2);
            set(&mut image, *second, 0xff);
            Ok(image)
        }
        _ => Ok(Vec::new(alloc)),
    }
}

/// Whether the image of these numbers is opened as expected.
fn opens(alloc: Global, numbers: &str, told: &str) -> Result<bool, WantOfMemory> {
    let mut read: Vec<u32> = Vec::new(alloc);
    for number in numbers.split(' ') {
        read.push(read_number(number.as_bytes(), 2000).unwrap_or(2000))?;
    }
    let image = image_of(alloc, &read)?;
    Ok(is_told(left_of(alloc, &image)?, told))
}

#[test]
fn an_image_is_blank_or_damaged_or_a_vault(rt: HostRuntime) -> Result<(), Fail> {
    for line in IMAGES.lines() {
        let (numbers, told) = line.rsplit_once(' ').ok_or(line)?;
        assert!(rt; opens(rt.alloc(), numbers, told)?, "{line}");
    }
    Ok(())
}
