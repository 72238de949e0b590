// Sheets, and each fault at its edge.
use crate::cases::check_entries;
use fleet::Fleet;
use indices::intake;
use rounding::Nearest;
use std::test::Fail;

// Layer, number, line, field and how many were added; the first four are 0 where there is no fault.
fn told(sheet: &[u8]) -> (u8, u8, u32, u32, u32) {
    let mut fleet = Fleet::open();
    match intake(&mut fleet, &Nearest, sheet) {
        Ok(added) => (0, 0, 0, 0, added),
        Err(stopped) => {
            let fault = stopped.fault;
            (
                fault.layer(),
                fault.number(),
                fault.line,
                fault.field,
                stopped.added,
            )
        }
    }
}

#[test]
fn three_units(rt: HostRuntime) -> Result<(), Fail> {
    let sheet = b"id,cap,rate,part,prate\n1,3,20000,0,0\n2,3,20000,0,0\n3,5,7000,2,33000\n";
    let mut fleet = Fleet::open();
    assert!(rt; intake(&mut fleet, &Nearest, sheet).is_ok());
    check_entries(
        &rt,
        &fleet,
        3,
        &[(3, 46_322_800_000), (11, 2_800_000), (12, 0)],
    )
}

#[test]
fn names_in_another_order(rt: HostRuntime) -> Result<(), Fail> {
    let sheet = b"prate,rate,id,part,cap\n33000,7000,3,2,5\n";
    let mut fleet = Fleet::open();
    assert!(rt; intake(&mut fleet, &Nearest, sheet).is_ok());
    assert_eq!(rt; fleet.unit(3), Some((5, 1)));
    check_entries(
        &rt,
        &fleet,
        1,
        &[(2, 40_000_000_000), (5, 7_000_000_000), (6, 0)],
    )
}

#[test]
fn units_before_a_fault_stay(rt: HostRuntime) -> Result<(), Fail> {
    let sheet = b"id,cap,rate,part,prate\n1,3,20000,0,0\n1,3,20000,0,0\n2,3,20000,0,0\n";
    let mut fleet = Fleet::open();
    assert!(rt; intake(&mut fleet, &Nearest, sheet).is_err());
    assert_eq!(rt; fleet.unit(1), Some((3, 1)));
    assert_eq!(rt; fleet.unit(2), None);
    assert_eq!(rt; fleet.entry(3)?, (20_000_000_000, 1));
    assert_eq!(rt; told(sheet), (3, 4, 3, 0, 1));
    Ok(())
}

#[test]
fn lengths_of_sheets(rt: HostRuntime) -> Result<(), Fail> {
    let sheet = vec![in rt.alloc(); b'1'; 65_536]?;
    assert!(rt; sheet.len() == 65_536);
    assert_eq!(rt; told(&sheet), (1, 15, 0, 0, 0));
    assert_eq!(rt; told(&sheet[0..65_535]), (1, 16, 1, 0, 0));
    Ok(())
}

#[test]
fn line_feeds(rt: HostRuntime) {
    assert_eq!(rt; told(b""), (1, 16, 1, 0, 0));
    assert_eq!(rt; told(b"id,cap,rate,part,prate"), (1, 16, 1, 0, 0));
    assert_eq!(rt; told(b"id,cap,rate,part,prate\n"), (0, 0, 0, 0, 0));
    assert_eq!(rt;
        told(b"id,cap,rate,part,prate\n1,3,0,0,0"),
        (1, 16, 2, 0, 0)
    );
    assert_eq!(rt;
        told(b"id,cap,rate,part,prate\n1,3,0,0,0\n"),
        (0, 0, 0, 0, 1)
    );
    assert_eq!(rt;
        told(b"id,cap,rate,part,prate\n1,3,0,0,0\nx"),
        (1, 16, 3, 0, 1)
    );
    assert_eq!(rt; told(b"x,cap"), (1, 16, 1, 0, 0), "16 comes before 17");
}

#[test]
fn names(rt: HostRuntime) {
    assert_eq!(rt; told(b"\n"), (2, 17, 1, 1, 0));
    assert_eq!(rt; told(b"id,Cap,rate,part,prate\n"), (2, 17, 1, 2, 0));
    assert_eq!(rt; told(b"id,cap,rate,part,id\n"), (2, 17, 1, 5, 0));
    assert_eq!(rt; told(b"id,cap,rate,part\n"), (2, 17, 1, 0, 0));
    assert_eq!(rt; told(b"id\n"), (2, 17, 1, 0, 0));
    assert_eq!(rt; told(b"id,cap,rate,part,prate,\n"), (2, 17, 1, 6, 0));
    assert_eq!(rt; told(b"id,cap,rate,part,prate,id\n"), (2, 17, 1, 6, 0));
    assert_eq!(rt; told(b"id,cap,rate,part,prate\r\n"), (2, 17, 1, 5, 0));
    assert_eq!(rt; told(b"id,rate,rate,x,prate\n"), (2, 17, 1, 3, 0));
    assert_eq!(rt; told(b"rate,part,prate,id,cap\n"), (0, 0, 0, 0, 0));
}

#[test]
fn digits(rt: HostRuntime) {
    assert_eq!(rt;
        told(b"id,cap,rate,part,prate\n1,3,2000a,0,0\n"),
        (1, 18, 2, 3, 0)
    );
    assert_eq!(rt;
        told(b"id,cap,rate,part,prate\n1,3,2000/,0,0\n"),
        (1, 18, 2, 3, 0)
    );
    assert_eq!(rt;
        told(b"id,cap,rate,part,prate\n1,3,2000:,0,0\n"),
        (1, 18, 2, 3, 0)
    );
    assert_eq!(rt;
        told(b"id,cap,rate,part,prate\n 1,3,0,0,0\n"),
        (1, 18, 2, 1, 0)
    );
    assert_eq!(rt;
        told(b"id,cap,rate,part,prate\n1,3,0,0,0\r\n"),
        (1, 18, 2, 5, 0)
    );
    assert_eq!(rt;
        told(b"id,cap,rate,part,prate\n1,3,0,0,-0\n"),
        (1, 18, 2, 5, 0)
    );
    assert_eq!(rt;
        told(b"id,cap,rate,part,prate\n1,3,123456789x,0,0\n"),
        (1, 18, 2, 3, 0)
    );
    assert_eq!(rt; told(b"id,cap,rate,part,prate\n1,x\n"), (1, 18, 2, 2, 0));
    assert_eq!(rt;
        told(b"id,cap,rate,part,prate\n1,3,0,0,0,x\n"),
        (1, 18, 2, 6, 0)
    );
    assert_eq!(rt;
        told(b"id,cap,rate,part,prate\n9,9,0987654,0,0\n"),
        (0, 0, 0, 0, 1)
    );
}

#[test]
fn numbers_of_digits(rt: HostRuntime) {
    assert_eq!(rt;
        told(b"id,cap,rate,part,prate\n1,3,0020000,0,0\n"),
        (0, 0, 0, 0, 1)
    );
    assert_eq!(rt;
        told(b"id,cap,rate,part,prate\n1,3,00020000,0,0\n"),
        (1, 19, 2, 3, 0)
    );
    assert_eq!(rt;
        told(b"id,cap,rate,part,prate\n1,3,,0,0\n"),
        (1, 19, 2, 3, 0)
    );
    assert_eq!(rt;
        told(b"id,cap,rate,part,prate\n1,3,0,0,\n"),
        (1, 19, 2, 5, 0)
    );
    assert_eq!(rt; told(b"id,cap,rate,part,prate\n\n"), (1, 19, 2, 1, 0));
    assert_eq!(rt;
        told(b"id,cap,rate,part,prate\n1,,x,0,0\n"),
        (1, 19, 2, 2, 0)
    );
    assert_eq!(rt;
        told(b"id,cap,rate,part,prate\n1,x,,0,0\n"),
        (1, 18, 2, 2, 0)
    );
}

#[test]
fn numbers_of_fields(rt: HostRuntime) {
    assert_eq!(rt;
        told(b"id,cap,rate,part,prate\n1,3,0,0\n"),
        (2, 20, 2, 0, 0)
    );
    assert_eq!(rt;
        told(b"id,cap,rate,part,prate\n1,3,0,0,0,0\n"),
        (2, 20, 2, 0, 0)
    );
    assert_eq!(rt;
        told(b"id,cap,rate,part,prate\n1,3,0,0,0\n1\n"),
        (2, 20, 3, 0, 1)
    );
    assert_eq!(rt;
        told(b"id,cap,rate,part,prate\n0,0,1000000,0\n"),
        (2, 20, 2, 0, 0)
    );
}

#[test]
fn rates(rt: HostRuntime) {
    assert_eq!(rt;
        told(b"id,cap,rate,part,prate\n1,3,999999,0,0\n"),
        (0, 0, 0, 0, 1)
    );
    assert_eq!(rt;
        told(b"id,cap,rate,part,prate\n1,3,1000000,0,0\n"),
        (2, 21, 2, 0, 0)
    );
    assert_eq!(rt;
        told(b"id,cap,rate,part,prate\n1,3,999998,1,1\n"),
        (0, 0, 0, 0, 1)
    );
    assert_eq!(rt;
        told(b"id,cap,rate,part,prate\n1,3,999998,1,2\n"),
        (2, 21, 2, 0, 0)
    );
    assert_eq!(rt;
        told(b"id,cap,rate,part,prate\n1,3,0,1,0\n"),
        (2, 21, 2, 0, 0)
    );
    assert_eq!(rt;
        told(b"id,cap,rate,part,prate\n1,3,0,0,1\n"),
        (2, 21, 2, 0, 0)
    );
    assert_eq!(rt;
        told(b"id,cap,rate,part,prate\n1,3,0,1,1\n"),
        (0, 0, 0, 0, 1)
    );
    assert_eq!(rt;
        told(b"id,cap,rate,part,prate\n0,0,9999999,0,9999999\n"),
        (2, 21, 2, 0, 0)
    );
}

#[test]
fn refusals_of_the_fleet(rt: HostRuntime) {
    assert_eq!(rt;
        told(b"id,cap,rate,part,prate\n0,3,0,0,0\n"),
        (3, 1, 2, 0, 0)
    );
    assert_eq!(rt;
        told(b"id,cap,rate,part,prate\n65536,3,0,0,0\n"),
        (3, 1, 2, 0, 0)
    );
    assert_eq!(rt;
        told(b"id,cap,rate,part,prate\n1,1001,0,0,0\n"),
        (3, 2, 2, 0, 0)
    );
    assert_eq!(rt;
        told(b"id,cap,rate,part,prate\n1,3,1,3,1\n"),
        (3, 3, 2, 0, 0)
    );
    assert_eq!(rt;
        told(b"id,cap,rate,part,prate\n1,3,0,3,1\n"),
        (0, 0, 0, 0, 1)
    );
    assert_eq!(rt;
        told(b"id,cap,rate,part,prate\n1,3,0,4,1\n"),
        (3, 3, 2, 0, 0)
    );
    assert_eq!(rt;
        told(b"id,cap,rate,part,prate\n1,1000,0,0,0\n2,1,0,0,0\n"),
        (3, 6, 3, 0, 1)
    );
}

#[test]
fn at_most_64_rows(rt: HostRuntime) {
    let sheet =
        b"id,cap,rate,part,prate\n1,1,0,0,0\n2,1,0,0,0\n3,1,0,0,0\n4,1,0,0,0\n5,1,0,0,0\n6,1,0,0,0\n7,1,0,0,0\n8,1,0,0,0\n9,1,0,0,0\n10,1,0,0,0\n11,1,0,0,0\n12,1,0,0,0\n13,1,0,0,0\n14,1,0,0,0\n15,1,0,0,0\n16,1,0,0,0\n17,1,0,0,0\n18,1,0,0,0\n19,1,0,0,0\n20,1,0,0,0\n21,1,0,0,0\n22,1,0,0,0\n23,1,0,0,0\n24,1,0,0,0\n25,1,0,0,0\n26,1,0,0,0\n27,1,0,0,0\n28,1,0,0,0\n29,1,0,0,0\n30,1,0,0,0\n31,1,0,0,0\n32,1,0,0,0\n33,1,0,0,0\n34,1,0,0,0\n35,1,0,0,0\n36,1,0,0,0\n37,1,0,0,0\n38,1,0,0,0\n39,1,0,0,0\n40,1,0,0,0\n41,1,0,0,0\n42,1,0,0,0\n43,1,0,0,0\n44,1,0,0,0\n45,1,0,0,0\n46,1,0,0,0\n47,1,0,0,0\n48,1,0,0,0\n49,1,0,0,0\n50,1,0,0,0\n51,1,0,0,0\n52,1,0,0,0\n53,1,0,0,0\n54,1,0,0,0\n55,1,0,0,0\n56,1,0,0,0\n57,1,0,0,0\n58,1,0,0,0\n59,1,0,0,0\n60,1,0,0,0\n61,1,0,0,0\n62,1,0,0,0\n63,1,0,0,0\n64,1,0,0,0\n65,1,0,0,0\n";
    assert_eq!(rt; told(sheet), (3, 5, 66, 0, 64));
}

#[test]
fn a_second_sheet(rt: HostRuntime) -> Result<(), Fail> {
    let mut fleet = Fleet::open();
    let first = b"id,cap,rate,part,prate\n1,3,20000,0,0\n";
    let second = b"id,cap,rate,part,prate\n2,3,20000,0,0\n1,3,20000,0,0\n";
    assert!(rt; intake(&mut fleet, &Nearest, first).is_ok());
    match intake(&mut fleet, &Nearest, second) {
        Ok(_) => Err(Fail::new("a fault was expected")),
        Err(stopped) => {
            assert_eq!(rt; stopped.added, 1);
            assert_eq!(rt; stopped.fault.number(), 4);
            assert_eq!(rt; fleet.entry(3)?, (39_600_000_000, 2));
            Ok(())
        }
    }
}

#[test]
fn a_fault_in_writing(rt: HostRuntime) -> Result<(), Fail> {
    let sheet = b"id,cap,rate,part,prate\n1,3,20000,0,0\n2,3,2000a,0,0\n";
    let mut fleet = Fleet::open();
    match intake(&mut fleet, &Nearest, sheet) {
        Ok(_) => Err(Fail::new("a fault was expected")),
        Err(stopped) => {
            let lines = format!(in rt.alloc(); "{stopped}")?;
            assert_eq!(rt; lines.as_str(), "layer,number,line,field,added\n1,18,3,3,1");
            Ok(())
        }
    }
}

// Twenty units: the entries were found by a separate program with whole numbers of any size. By
// exact fractions none of its entries is off by more than 2.46 parts.
#[test]
fn twenty_units(rt: HostRuntime) -> Result<(), Fail> {
    let sheet =
        b"id,cap,rate,part,prate\n1,12,80000,0,0\n2,12,10000,0,0\n3,12,120000,0,0\n4,20,20000,10,15000\n5,20,100000,0,0\n6,50,80000,0,0\n7,50,20000,0,0\n8,50,40000,25,15000\n9,76,100000,0,0\n10,76,120000,0,0\n11,100,120000,0,0\n12,100,100000,50,15000\n13,5,100000,0,0\n14,7,120000,0,0\n15,9,20000,0,0\n16,3,100000,1,15000\n17,30,20000,0,0\n18,45,120000,0,0\n19,60,20000,0,0\n20,75,40000,37,15000\n";
    let mut fleet = Fleet::open();
    assert!(rt; intake(&mut fleet, &Nearest, sheet).is_ok());
    assert_eq!(rt; fleet.greatest_outage(), 812);
    check_entries(
        &rt,
        &fleet,
        20,
        &[
            (1, 799_306_404_821),
            (2, 795_904_818_460),
            (10, 716_103_691_300),
            (50, 530_548_039_355),
            (100, 296_815_582_125),
            (200, 38_139_601_349),
            (300, 2_424_729_398),
            (400, 73_531_435),
            (500, 517_231),
            (600, 896),
            (700, 0),
        ],
    )
}
