//! The tables of the tests, one case a line.

/// Texts of moments, and their seconds since 1970-01-01T00:00:00Z.
pub(super) const MOMENTS: &str = "\
2024-02-29T23:59:59Z|1709251199
1970-01-01T00:00:00Z|0
1969-12-31T23:59:59Z|-1
0001-01-01T00:00:00Z|-62135596800
9999-12-31T23:59:59Z|253402300799
2023-10-31T23:59:59Z|1698796799
0004-02-29T12:34:56Z|-62035845904
1900-03-01T00:00:00Z|-2203891200
2000-02-29T12:34:56Z|951827696
2100-12-31T23:00:00Z|4133977200";

/// Texts of durations, and their seconds.
pub(super) const DURATIONS: &str = "\
PT90M|5400
P0D|0
P1DT1H|90000
PT999999999999S|999999999999
P1DT2H3M4S|93784
PT2H3M4S|7384
P1DT3M4S|86584
P1DT2H4S|93604
P1DT2H3M|93780
PT3M4S|184
P1DT4S|86404
P1D|86400
PT2H|7200
PT3M|180
PT4S|4
P1DT2H|93600
P1DT3M|86580
PT2H4S|7204
PT2H3M|7380
P0DT0H0M0S|0
PT000000000001S|1
PT25H61M61S|93721
P11574074DT1H46M39S|999999999999
PT86400S|86400
PT3600S|3600
PT60S|60
P000000000001D|86400";

/// A datatype, a text, and how its value is printed.
pub(super) const VALUES: &str = "\
integer|007|7
integer|-9223372036854775808|-9223372036854775808
integer|9223372036854775807|9223372036854775807
integer|0000000000000000000|0
integer|-0|0
integer|-10|-10
boolean|true|true
boolean|false|false
datetime|2024-02-29T23:59:59Z|2024-02-29T23:59:59Z
string||
text| any Text, ünd 😀 | any Text, ünd 😀\u{20}
uri|urn:g|urn:g
uri|!~|!~
duration|PT90M|PT1H30M
duration|P0D|PT0S
duration|P1DT1H|P1DT1H
duration|PT999999999999S|P11574074DT1H46M39S
duration|P1DT2H3M4S|P1DT2H3M4S
duration|PT2H3M4S|PT2H3M4S
duration|P1DT3M4S|P1DT3M4S
duration|P1DT2H4S|P1DT2H4S
duration|P1DT2H3M|P1DT2H3M
duration|PT3M4S|PT3M4S
duration|P1DT4S|P1DT4S
duration|P1D|P1D
duration|PT2H|PT2H
duration|PT3M|PT3M
duration|PT4S|PT4S
duration|P1DT2H|P1DT2H
duration|P1DT3M|P1DT3M
duration|PT2H4S|PT2H4S
duration|PT2H3M|PT2H3M
duration|P0DT0H0M0S|PT0S
duration|PT000000000001S|PT1S
duration|PT25H61M61S|P1DT2H2M1S
duration|P11574074DT1H46M39S|P11574074DT1H46M39S
duration|PT86400S|P1D
duration|PT3600S|PT1H
duration|PT60S|PT1M
duration|P000000000001D|P1D";

/// A datatype, and a text that has no value.
pub(super) const NO_VALUES: &str = "\
integer|9223372036854775808
integer|-9223372036854775809
integer|00000000000000000001
integer|
integer|+1
integer|-
integer|--1
integer| 1
integer|1\u{20}
integer|1.0
integer|٣
boolean|True
boolean|true\u{20}
boolean|1
boolean|
datetime|2023-02-29T00:00:00Z
datetime|0000-01-01T00:00:00Z
datetime|2024-01-01T00:00:60Z
datetime|1900-02-29T00:00:00Z
duration|P
duration|P1DT
duration|P11574074DT1H46M40S
uri|
uri|urn: g
uri|urn:ü
uri|urn:\u{7f}";

/// A datatype, the least and the greatest value, the least and the greatest length, two values of
/// an enumeration (a dot for what is absent), a text, and whether its value fits.
pub(super) const RESTRICTED: &str = "\
integer|-5 7|. .|. .|-5|yes
integer|-5 7|. .|. .|007|yes
integer|-5 7|. .|. .|-6|no
integer|-5 7|. .|. .|8|no
datetime|2024-01-01T00:00:00Z 2024-12-31T23:59:59Z|. .|. .|2024-01-01T00:00:00Z|yes
datetime|2024-01-01T00:00:00Z 2024-12-31T23:59:59Z|. .|. .|2024-12-31T23:59:59Z|yes
datetime|2024-01-01T00:00:00Z 2024-12-31T23:59:59Z|. .|. .|2023-12-31T23:59:59Z|no
datetime|2024-01-01T00:00:00Z 2024-12-31T23:59:59Z|. .|. .|2025-01-01T00:00:00Z|no
duration|PT1M P1D|. .|. .|PT60S|yes
duration|PT1M P1D|. .|. .|PT24H|yes
duration|PT1M P1D|. .|. .|PT59S|no
duration|PT1M P1D|. .|. .|PT24H1S|no
text|a c|. .|. .|b|no
text|. .|2 2|. .|é😀|yes
text|. .|3 .|. .|é😀|no
text|. .|. 1|. .|é😀|no
text|. .|0 0|. .||yes
text|. .|1 .|. .||no
text|. .|. 3|. .|abc|yes
integer|. .|. .|7 8|007|yes
integer|. .|. .|7 8|9|no
duration|. .|. .|PT24H PT1S|P1D|yes
text|. .|. .|7 8|007|no
text|. .|. .|7 8|8|yes
boolean|. .|. .|true true|false|no
boolean|. .|. .|. .|false|yes";

/// A datatype, a text, another datatype, and whether the value is one of that.
pub(super) const OTHERS: &str = "\
text|a b|uri|no
text|urn:a|uri|yes
boolean|true|boolean|yes
integer|1|duration|no
datetime|1970-01-01T00:00:01Z|integer|no
duration|PT1S|duration|yes";
