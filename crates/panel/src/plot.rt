// Both masks as a drawing in SVG, over log frequency: 1,000 units per octave from 20 Hz up, 60 per
// decibel from +12 dB down.
use crate::chord::BINS;
use crate::figures::decibels;
use counts::floor_to_count;
use single_power::log2;
use std::io;

const HIGHEST_DB: f32 = 12.0;

const LOWEST_DB: f32 = -84.0;

fn across(log2_hz: f32) -> usize {
    floor_to_count((log2_hz - log2(20.0)) * 1000.0)
}

fn down(db: f32) -> usize {
    floor_to_count((HIGHEST_DB - float32::order::clamp(db, LOWEST_DB, HIGHEST_DB)) * 60.0)
}

// Silence is drawn at the bottom.
fn height(gain: f32) -> usize {
    if gain == 0.0 {
        return down(LOWEST_DB);
    }
    down(decibels(gain))
}

// The left line is wider, so that both are visible where they coincide.
const STYLE: &str = "<style>
text { font: 250px sans-serif; fill: #333333 }
path { stroke: #dddddd; stroke-width: 12 }
polyline, .left, .right { fill: none; stroke-linejoin: round }
.left { stroke: #8ab8e6; stroke-width: 70 }
.right { stroke: #c0392b; stroke-width: 28 }
</style>";

const NOTES: &str = "C4, E&#9837;4 on the left, G4 on the right, B&#9837;4 tuned down";

const TURNED: &str = "transform='translate(-850 2880) rotate(-90)'";

fn print_words(rt: &impl Print) -> io::Result<()> {
    println!(rt; "<text x='0' y='-680' style='font-size: 380px'>C minor seventh</text>")?;
    println!(rt; "<text x='0' y='-270'>{NOTES}; 48 kHz, size 8,192</text>")?;
    print!(rt; "<path class='left' d='M7400 -770H7900'/>")?;
    println!(rt; "<text x='8000' y='-680'>left</text>")?;
    print!(rt; "<path class='right' d='M8800 -770H9300'/>")?;
    println!(rt; "<text x='9400' y='-680'>right</text>")?;
    println!(rt; "<text x='5000' y='6600' text-anchor='middle'>frequency</text>")?;
    println!(rt; "<text {TURNED} text-anchor='middle'>gain, dB</text>")
}

fn print_head(rt: &impl Print) -> io::Result<()> {
    print!(rt; "<svg xmlns='http://www.w3.org/2000/svg' viewBox='-1150 -1150 11650 8000'")?;
    println!(rt; " width='1165' height='800'>")?;
    println!(rt; "<title>C minor seventh</title>")?;
    println!(rt; "{STYLE}")?;
    println!(rt; "<rect x='-1150' y='-1150' width='11650' height='8000' fill='#ffffff'/>")?;
    print_words(rt)
}

fn print_frequency_line(rt: &impl Print, hertz: f32, label: &str) -> io::Result<()> {
    let x = across(log2(hertz));
    print!(rt; "<path d='M{x} 0V5760'/>")?;
    println!(rt; "<text x='{x}' y='6120' text-anchor='middle'>{label}</text>")
}

fn print_frequency_lines(rt: &impl Print) -> io::Result<()> {
    print_frequency_line(rt, 20.0, "20 Hz")?;
    print_frequency_line(rt, 50.0, "50 Hz")?;
    print_frequency_line(rt, 100.0, "100 Hz")?;
    print_frequency_line(rt, 200.0, "200 Hz")?;
    print_frequency_line(rt, 500.0, "500 Hz")?;
    print_frequency_line(rt, 1000.0, "1 kHz")?;
    print_frequency_line(rt, 2000.0, "2 kHz")?;
    print_frequency_line(rt, 5000.0, "5 kHz")?;
    print_frequency_line(rt, 10000.0, "10 kHz")?;
    print_frequency_line(rt, 20000.0, "20 kHz")
}

fn print_level_line(rt: &impl Print, db: f32, label: &str) -> io::Result<()> {
    let y = down(db);
    print!(rt; "<path d='M0 {y}H10000'/>")?;
    println!(rt; "<text x='-150' y='{y}' dy='90' text-anchor='end'>{label}</text>")
}

fn print_level_lines(rt: &impl Print) -> io::Result<()> {
    print_level_line(rt, 12.0, "12")?;
    print_level_line(rt, 0.0, "0")?;
    print_level_line(rt, -12.0, "-12")?;
    print_level_line(rt, -24.0, "-24")?;
    print_level_line(rt, -36.0, "-36")?;
    print_level_line(rt, -48.0, "-48")?;
    print_level_line(rt, -60.0, "-60")?;
    print_level_line(rt, -72.0, "-72")?;
    print_level_line(rt, -84.0, "-84")
}

// The bins from 20 to 20,480 Hz.
fn print_points(rt: &impl Print, table: &[f32; BINS], mask: &[f32; BINS]) -> io::Result<()> {
    for bin in 4usize..3496 {
        println!(rt; "{},{}", across(table[bin]), height(mask[bin]))?;
    }
    Ok(())
}

fn print_mask_line(
    rt: &impl Print,
    table: &[f32; BINS],
    mask: &[f32; BINS],
    style: &str,
) -> io::Result<()> {
    println!(rt; "<polyline class='{style}' points='")?;
    print_points(rt, table, mask)?;
    println!(rt; "'/>")
}

pub fn print_plot(
    rt: &impl Print,
    table: &[f32; BINS],
    left: &[f32; BINS],
    right: &[f32; BINS],
) -> io::Result<()> {
    print_head(rt)?;
    print_frequency_lines(rt)?;
    print_level_lines(rt)?;
    print_mask_line(rt, table, left, "left")?;
    print_mask_line(rt, table, right, "right")?;
    println!(rt; "</svg>")
}
