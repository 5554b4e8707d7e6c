use super::stories::first_other;
use st_observer::isolation_law;
use std::test::Fail;

// Entries whose core index file is `{}`.
const ANCHORS: &str = "new none +none|entry 0 A2 unneeded unneeded unneeded unneeded|entry 1 none
new none +padded|entry 0 A2 unneeded unneeded unneeded unneeded|entry 1 none
new none +thousand|entry 0 read unneeded unneeded unneeded unneeded|entry 1 none
new none +above|entry 0 A2 unneeded unneeded unneeded unneeded|entry 1 none
new none +short|entry 0 A3 unneeded unneeded unneeded unneeded|entry 1 none";

#[test]
fn an_anchor_string_is_judged_by_its_rules(rt: HostRuntime) -> Result<(), Fail> {
    match first_other(&rt, ANCHORS) {
        Some(line) => Err(Fail::from(line)),
        None => Ok(()),
    }
}

// A cut drops the files that entries wait for, and keeps the content.
const LIFE: &str =
    "new +created|absent a|operations a 0|wanted EiA10dvb-_d3kAW7ki4Rzo6ZaD84v2bZZ4O2fJ21bh1ChA
|wants EiA10dvb-_d3kAW7ki4Rzo6ZaD84v2bZZ4O2fJ21bh1ChA|spares EiCsir62ZDH0aqKUHQ01Ma8lTAFhXsAV0ua-pqMudFd96Q
new +created created|active a|operations a 1|wanted none|spares EiA10dvb-_d3kAW7ki4Rzo6ZaD84v2bZZ4O2fJ21bh1ChA
new +created -0 created|absent a|operations a 0|wanted none
new +created created -0 -0|absent a|operations a 0|wanted none
new +created created created -0 +created -1|active a|operations a 1|wanted none";

#[test]
fn an_identifier_follows_entries_and_files(rt: HostRuntime) -> Result<(), Fail> {
    isolation_law();
    match first_other(&rt, LIFE) {
        Some(line) => Err(Fail::from(line)),
        None => Ok(()),
    }
}

// One file is read for one entry and rejected for another.
const SHARED: &str =
    "new +alone +beside alone beside updated|entry 0 read unneeded read missing missing|entry 1 read unneeded P6 unneeded unneeded
new updated +alone beside +beside alone|entry 0 read unneeded read missing missing|entry 1 read unneeded P6 unneeded unneeded
new beside alone updated +alone +beside|entry 0 read unneeded read missing missing|entry 1 read unneeded P6 unneeded unneeded";

#[test]
fn a_file_is_judged_for_each_entry(rt: HostRuntime) -> Result<(), Fail> {
    match first_other(&rt, SHARED) {
        Some(line) => Err(Fail::from(line)),
        None => Ok(()),
    }
}

// Twenty entries with one create wait for its file.
const TWENTY: &str = "+created +created +created +created +created|applied 0
+created +created +created +created +created|applied 0
+created +created +created +created +created|applied 0
+created +created +created +created +created|applied 0
created|applied 27|operations a 20";

// After the file is received, each create is applied once.
#[test]
fn what_many_entries_give_is_applied_once(rt: HostRuntime) -> Result<(), Fail> {
    match first_other(&rt, TWENTY) {
        Some(line) => Err(Fail::from(line)),
        None => Ok(()),
    }
}

// A create whose chunk file is received last, and eight updates; then a ninth whose files are all
// there.
const LATE: &str = "+begun begun begun.index next next.index next.proof next.chunk
+next +next +next +next +next +next +next +next
begun.chunk|applied 16
+next|applied 8|operations a 10";

#[test]
fn a_late_file_costs_the_steps_behind_it(rt: HostRuntime) -> Result<(), Fail> {
    match first_other(&rt, LATE) {
        Some(line) => Err(Fail::from(line)),
        None => Ok(()),
    }
}

// Files are wanted once each, in the order of the texts of their URIs, which is not that of their
// digests: at first those of c, a, b. Entries may miss one file, in one role or another.
const WANTED: &str =
    "new +a +b +c|wanted EiA0DEN7KpqCqnY7X31XwDQsWE1NIaGXlizxR6Cv7rq0BQ EiAAUzqJcUH1oAX88YG3M_a-4_OUzVijvEYeR6DUQngubQ EiAbaxD8caPNHUZ7vvhcTFW8spj_oQRUGz3FsTgMJTK96Q
c|wanted EiAAUzqJcUH1oAX88YG3M_a-4_OUzVijvEYeR6DUQngubQ EiAbaxD8caPNHUZ7vvhcTFW8spj_oQRUGz3FsTgMJTK96Q|entry 2 C2 unneeded unneeded unneeded unneeded
new +a +a|wanted EiAAUzqJcUH1oAX88YG3M_a-4_OUzVijvEYeR6DUQngubQ|entry 0 missing unneeded unneeded unneeded unneeded|entry 1 missing unneeded unneeded unneeded unneeded
a|wanted none|entry 0 C2 unneeded unneeded unneeded unneeded|entry 1 C2 unneeded unneeded unneeded unneeded
new +each +b A|wanted EiAbaxD8caPNHUZ7vvhcTFW8spj_oQRUGz3FsTgMJTK96Q EiBZq6hqGd_l3g56gvman46yC5_n2e2Ere_jEx9DkRLD4Q EiC-1r3MBg_m09ggTCSpAMRWgHqttVDseB6RI0OpXB6aDg|entry 0 read missing missing unneeded unneeded
new +next +proof next next.index|wanted EiAJI_rzQGfuyAGS6wk-h0XyqcD6awAxXlA15T7pLn-vKQ EiAN8iC05PUviE6TJNMw4PYOgYFW5HhTmRsaFkRzXV95LQ|entry 0 read unneeded read missing missing|entry 1 missing unneeded unneeded unneeded unneeded
next.proof|wanted EiAJI_rzQGfuyAGS6wk-h0XyqcD6awAxXlA15T7pLn-vKQ|entry 0 read unneeded read read missing|entry 1 C3 unneeded unneeded unneeded unneeded
new +twice +begun twice twice.index begun begun.index|wanted EiAN8iC05PUviE6TJNMw4PYOgYFW5HhTmRsaFkRzXV95LQ EiCDF_TW2tmFJVV3PxGfWrfZGWbsrgt64M_8Fhoc6C1Fqg|entry 0 read missing read missing missing
next.proof|wanted EiCDF_TW2tmFJVV3PxGfWrfZGWbsrgt64M_8Fhoc6C1Fqg|entry 0 read Q3 read read missing
begun.chunk|wanted none|entry 0 read Q3 read read K4|entry 1 read unneeded read unneeded read
new +short|wanted none";

#[test]
fn files_are_wanted_in_the_order_of_their_texts(rt: HostRuntime) -> Result<(), Fail> {
    match first_other(&rt, WANTED) {
        Some(line) => Err(Fail::from(line)),
        None => Ok(()),
    }
}

// The files of a later entry are received first. The delta of the create that both have is received
// last for the earlier entry.
const FIRST: &str =
    "new +none +early +none +late none|absent signed|absent a|absent e|places signed none
late late.index late.chunk|services signed s0|places signed 3|active a|places a 3|absent e
early|services signed none|places signed 1 3|active a|places a 3|active e|places e 1
early.index early.chunk|services signed s0|places signed 1 3|places e 1
-3|services signed s0|places signed 1|absent a|places a none|active e|places e 1";

#[test]
fn the_first_create_stands_whichever_file_comes_first(rt: HostRuntime) -> Result<(), Fail> {
    match first_other(&rt, FIRST) {
        Some(line) => Err(Fail::from(line)),
        None => Ok(()),
    }
}
