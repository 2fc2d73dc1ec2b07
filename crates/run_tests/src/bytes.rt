// The bytes of a made inverter, after the documents of the formats.
use crate::calls::{End, Left, Said, ends};
use crate::doglegs::{DOG, OR};
use crate::make::{GATE, LATCH, NAND};
use crate::setup::{INVERTER, inputs};
use cell_run::Status;
use std::alloc::Global;
use std::test::Fail;

// The library up to its structure's second element: the well from (-1500, 9300) to (7650, 17700) nanometres.
const GDS: [u8; 166] = [
    0x00, 0x06, 0x00, 0x02, 0x02, 0x58, 0x00, 0x1c, 0x01, 0x02, 0x00, 0x00, 0x00, 0x00, 0x00, 0x00,
    0x00, 0x00, 0x00, 0x00, 0x00, 0x00, 0x00, 0x00, 0x00, 0x00, 0x00, 0x00, 0x00, 0x00, 0x00, 0x00,
    0x00, 0x00, 0x00, 0x0c, 0x02, 0x06, 0x63, 0x65, 0x6c, 0x6c, 0x67, 0x65, 0x6e, 0x00, 0x00, 0x14,
    0x03, 0x05, 0x3e, 0x41, 0x89, 0x37, 0x4b, 0xc6, 0xa7, 0xf0, 0x39, 0x44, 0xb8, 0x2f, 0xa0, 0x9b,
    0x5a, 0x54, 0x00, 0x1c, 0x05, 0x02, 0x00, 0x00, 0x00, 0x00, 0x00, 0x00, 0x00, 0x00, 0x00, 0x00,
    0x00, 0x00, 0x00, 0x00, 0x00, 0x00, 0x00, 0x00, 0x00, 0x00, 0x00, 0x00, 0x00, 0x00, 0x00, 0x08,
    0x06, 0x06, 0x69, 0x6e, 0x76, 0x00, 0x00, 0x04, 0x08, 0x00, 0x00, 0x06, 0x0d, 0x02, 0x00, 0x2a,
    0x00, 0x06, 0x0e, 0x02, 0x00, 0x00, 0x00, 0x2c, 0x10, 0x03, 0xff, 0xff, 0xfa, 0x24, 0x00, 0x00,
    0x24, 0x54, 0xff, 0xff, 0xfa, 0x24, 0x00, 0x00, 0x45, 0x24, 0x00, 0x00, 0x1d, 0xe2, 0x00, 0x00,
    0x45, 0x24, 0x00, 0x00, 0x1d, 0xe2, 0x00, 0x00, 0x24, 0x54, 0xff, 0xff, 0xfa, 0x24, 0x00, 0x00,
    0x24, 0x54, 0x00, 0x04, 0x11, 0x00,
];

const LEF: &[u8] = b"VERSION 5.8 ;
BUSBITCHARS \"[]\" ;
DIVIDERCHAR \"/\" ;
UNITS
  DATABASE MICRONS 1000 ;
END UNITS
MACRO inv
  CLASS CORE ;
  ORIGIN 0.000 0.000 ;
  SIZE 6.150 BY 17.700 ;
  SYMMETRY X Y ;
  PIN a
    DIRECTION INPUT ;
    USE SIGNAL ;
    PORT
      LAYER metal1 ;
      RECT 2.700 7.500 3.900 8.700 ;
    END
  END a
  PIN y
    DIRECTION OUTPUT ;
    USE SIGNAL ;
    PORT
      LAYER metal1 ;
      RECT 0.600 7.500 1.800 8.700 ;
    END
  END y
  PIN vdd
    DIRECTION INOUT ;
    USE POWER ;
    PORT
      LAYER metal1 ;
      RECT 0.000 15.300 6.150 17.700 ;
    END
  END vdd
  PIN gnd
    DIRECTION INOUT ;
    USE GROUND ;
    PORT
      LAYER metal1 ;
      RECT 0.000 0.000 6.150 2.400 ;
    END
  END gnd
  OBS
    LAYER metal1 ;
    RECT 0.600 3.750 1.800 6.600 ;
    RECT 0.600 9.600 1.800 12.450 ;
    RECT 4.350 2.400 5.550 4.950 ;
    RECT 4.350 11.250 5.550 15.300 ;
    LAYER metal2 ;
    RECT 0.600 5.400 1.800 8.700 ;
    RECT 0.600 7.500 1.800 10.800 ;
  END
END inv
END LIBRARY
";

const MADE: End = End {
    status: Status::Done,
    said: Said::First("status 0 ok\ncell inv\n"),
    files: &[
        ("out.gds", Left::Front(&GDS)),
        ("out.lef", Left::Bytes(LEF)),
    ],
};

#[test]
fn makes_the_files_of_an_inverter(rt: HostRuntime) -> Result<(), Fail> {
    let given = inputs(["", INVERTER, ""]);
    assert!(rt; ends(rt.alloc(), "make - c.sp inv out", &given, &[], &MADE)?);
    Ok(())
}

// A cell that is made: the technology, the subcircuit, the words, and the lengths and sums of the drawing and of the
// abstract as another program writes them.
const CELLS: [(&str, &str, &str, (usize, u32), (usize, u32)); 9] = [
    (
        "height = 130",
        INVERTER,
        "make t.toml c.sp inv out",
        (2122, 2_388_945_522),
        (998, 3_083_544_692),
    ),
    (
        "",
        NAND,
        "make - c.sp nand2 out",
        (2968, 1_324_386_592),
        (1210, 2_017_374_168),
    ),
    (
        "",
        GATE,
        "make - c.sp tg out",
        (2964, 2_244_041_150),
        (1331, 3_709_964_110),
    ),
    (
        "",
        LATCH,
        "make - c.sp latch out",
        (6986, 2_361_685_513),
        (1858, 851_479_378),
    ),
    (
        "",
        INVERTER,
        "make - c.sp inv out --taps",
        (2890, 4_057_519_122),
        (997, 3_283_094_101),
    ),
    (
        "",
        LATCH,
        "make - c.sp latch out --dogleg",
        (7114, 4_129_790_390),
        (1897, 1_002_186_549),
    ),
    (
        "",
        DOG,
        "make - c.sp dog out --dogleg",
        (5064, 1_857_266_569),
        (2067, 697_832_375),
    ),
    (
        "",
        DOG,
        "make - c.sp dog out --dogleg --taps",
        (5832, 4_249_455_693),
        (2067, 697_832_375),
    ),
    (
        "",
        OR,
        "make - c.sp or2 out --dogleg",
        (4028, 3_918_117_477),
        (1391, 2_588_649_681),
    ),
];

fn is_made(
    alloc: Global,
    [tech, spice]: [&str; 2],
    words: &str,
    gds: (usize, u32),
    lef: (usize, u32),
) -> Result<bool, Fail> {
    let files = [
        ("out.gds", Left::Mark(gds.0, gds.1)),
        ("out.lef", Left::Mark(lef.0, lef.1)),
    ];
    let end = End {
        status: Status::Done,
        said: Said::First("status 0 ok\n"),
        files: &files,
    };
    ends(alloc, words, &inputs([tech, spice, ""]), &[], &end)
}

#[test]
fn makes_the_files_of_cells(rt: HostRuntime) -> Result<(), Fail> {
    for (tech, spice, words, gds, lef) in &CELLS {
        assert!(rt;
            is_made(rt.alloc(), [tech, spice], words, *gds, *lef)?,
            "{words}"
        );
    }
    Ok(())
}
