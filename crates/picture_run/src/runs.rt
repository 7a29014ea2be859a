// What each program does with its pictures.
use crate::records::each_picture;
use crate::stages::{finished_checksums, with_stage};
use checksum::picture_checksums;
use picture_record::{read_bytes, word};
use picture_text::{Fingerprints, Moves, put_checksums, put_line, put_moves, put_pixel};
use recogniser::pixel_at;
use std::io::{Read, Write};
use tile_run::tile_lines;

// A line for each picture: the stage's answer and what it left.
pub fn run_stage<R: Read, W: Write>(input: &mut R, output: &mut W) {
    each_picture(input, output, |_, output, record| {
        with_stage(record, |verdict, out| {
            put_line(output, record.number, verdict, Fingerprints::of(out))
        })?;
        Ok(())
    });
}

// A line for each picture: the stage's answer and how far it moved samples.
pub fn run_moves<R: Read, W: Write>(input: &mut R, output: &mut W) {
    each_picture(input, output, |_, output, record| {
        with_stage(record, |verdict, out| {
            put_moves(
                output,
                record.number,
                verdict,
                Moves::of(&record.picture.planes, out),
            )
        })?;
        Ok(())
    });
}

// A line for each tile of each picture: term 3 tried.
pub fn run_tiles<R: Read, W: Write>(input: &mut R, output: &mut W) {
    each_picture(input, output, |_, output, record| {
        tile_lines(output, record.number, record.lent, &record.picture)?;
        Ok(())
    });
}

// A line for each picture: the checksums of its planes as they are given.
pub fn run_checksums<R: Read, W: Write>(input: &mut R, output: &mut W) {
    each_picture(input, output, |_, output, record| {
        let sums = picture_checksums(record.picture.settings, &record.picture.planes);
        put_checksums(output, record.number, sums)?;
        Ok(())
    });
}

// A line for each picture: the checksums of what the stage left of it.
pub fn run_finished_checksums<R: Read, W: Write>(input: &mut R, output: &mut W) {
    each_picture(input, output, |_, output, record| {
        with_stage(record, |verdict, out| {
            let sums = finished_checksums(record.picture.settings, verdict, out);
            put_checksums(output, record.number, sums)
        })?;
        Ok(())
    });
}

// A line for each picture: one pixel of its planes as they are given. Its column and row, a word each, stand behind the
// picture, and without them it is too short.
pub fn run_pixels<R: Read, W: Write>(input: &mut R, output: &mut W) {
    each_picture(input, output, |input, output, record| {
        let mut at = [0u8; 8];
        read_bytes(input, &mut at)?;
        let picture = &record.picture;
        let pixel = pixel_at(
            picture.settings,
            &picture.planes,
            word(&at, 0),
            word(&at, 1),
        );
        put_pixel(output, record.number, pixel)?;
        Ok(())
    });
}
