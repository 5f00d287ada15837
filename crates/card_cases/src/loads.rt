// Cases of loading a card into its record and tables, and of the parts of an image and of tables that can be read.
use calibration::Calibration;
use camera::Subpage;
use eeprom::Loaded;
use offsets::Offset;
use refusal::Refusal;
use stream::{Differs, Expected};

// ---- A record

fn same_sensor(expected: &mut Expected, record: Calibration) -> Result<(), Differs> {
    expected.same(i32::from(record.k_v_dd))?;
    expected.same(i32::from(record.v_dd_25))?;
    expected.same(u32::from(record.resolution))?;
    expected.same(record.k_v_ptat)?;
    expected.same(record.k_t_ptat)?;
    expected.same(record.v_ptat_25)?;
    expected.same(record.alpha_ptat)?;
    expected.same(record.gain)?;
    expected.same(record.k_s_ta)
}

fn same_compensation(expected: &mut Expected, record: Calibration) -> Result<(), Differs> {
    expected.same(record.emissivity)?;
    expected.same(record.alpha_cp)?;
    expected.same(i32::from(record.offset_reference_cp))?;
    expected.same(record.k_v_cp)?;
    expected.same(record.k_ta_cp)?;
    expected.same_gradient(record.temperature_gradient_coefficient)
}

fn same_record(expected: &mut Expected, record: Calibration) -> Result<(), Differs> {
    same_sensor(expected, record)?;
    for corner in record.corner_temperatures {
        expected.same(i32::from(corner))?;
    }
    expected.all_same(&record.k_s_to)?;
    same_compensation(expected, record)?;
    expected.all_same(&record.range_coefficients)
}

// ---- A load

// Compares verdict, mended words and record. After a refusal the expected answer has no mended words and a record of zeros.
pub fn same_loaded(
    expected: &mut Expected,
    loaded: Result<Loaded, Refusal>,
) -> Result<(), Differs> {
    let verdict = loaded.map(|_| ());
    let Loaded {
        calibration,
        mending,
    } = loaded.unwrap_or(Loaded {
        calibration: calibration::no_calibration(),
        mending: card::no_mending(),
    });
    expected.same_verdict(verdict)?;
    expected.same_size(mending.count)?;
    expected.same_size(mending.last)?;
    same_record(expected, calibration)
}

// The five tables of a load.
#[derive(Clone, Copy)]
pub struct Tables {
    pub offsets0: [Offset; 200],
    pub offsets1: [Offset; 200],
    pub alpha: [f32; 200],
    pub k_v: [f32; 200],
    pub k_ta: [f32; 200],
}

// The tables before a load: an entry that no call writes stays 77.
pub fn tables_before() -> Tables {
    Tables {
        offsets0: [77; 200],
        offsets1: [77; 200],
        alpha: [77.0; 200],
        k_v: [77.0; 200],
        k_ta: [77.0; 200],
    }
}

pub fn same_tables(expected: &mut Expected, tables: &Tables) -> Result<(), Differs> {
    expected.all_same(&tables.offsets0)?;
    expected.all_same(&tables.offsets1)?;
    expected.all_same(&tables.alpha)?;
    expected.all_same(&tables.k_v)?;
    expected.all_same(&tables.k_ta)
}

pub fn load(input: &[u8], expected: &mut Expected) -> Result<(), Differs> {
    let mut tables = tables_before();
    let loaded = eeprom::load(
        stream::rest(input, 18),
        stream::long_at(input, 0) as usize,
        stream::first_mut(&mut tables.offsets0, stream::size_at(input, 8)),
        stream::first_mut(&mut tables.offsets1, stream::size_at(input, 10)),
        stream::first_mut(&mut tables.alpha, stream::size_at(input, 12)),
        stream::first_mut(&mut tables.k_v, stream::size_at(input, 14)),
        stream::first_mut(&mut tables.k_ta, stream::size_at(input, 16)),
    );
    same_loaded(expected, loaded)?;
    same_tables(expected, &tables)
}

// ---- Parts

pub fn row(input: &[u8], expected: &mut Expected) -> Result<(), Differs> {
    let number = stream::long_at(input, 0) as usize;
    expected.all_same(eeprom::alpha_row(stream::rest(input, 8), number))
}

pub fn subpage(input: &[u8], expected: &mut Expected) -> Result<(), Differs> {
    let mut zero: [Offset; 200] = [0; 200];
    let mut one: [Offset; 200] = [0; 200];
    stream::fill(input, 5, &mut zero);
    stream::fill(input, 805, &mut one);
    let subpage = match stream::byte_at(input, 0) {
        0 => Subpage::Zero,
        _ => Subpage::One,
    };
    expected.all_same(eeprom::subpage_offsets(
        stream::first(&zero, stream::size_at(input, 1)),
        stream::first(&one, stream::size_at(input, 3)),
        subpage,
    ))
}
