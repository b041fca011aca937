// The bench cases of document 01, and those of request [6] of document 02, as one table of steps.
ghost use Rattle.cases.specs.Steps.{Plays};

pub const CASE_COUNT: u8 = 15;

pub const ROW_COUNT: usize = 136;

// A row is a step of a case, in 45 characters:
//
//   case  kind  A  B  C  answer  D  place  length  shown
//
// A, C and place are hexadecimal, the others decimal; - stands for 0. Of kind and answer the first letter counts.
//
//   new              prints the title at this place of the bytes, so long; new buffers for B vectors
//   start            the configuration at this place of the bytes, BAR 0 of C bytes, BAR 1 of A bytes, E = B
//   read, write      of B bytes of the configuration at A: C is the value written
//   Read, Write      the same of BAR 0
//   event            number A, over an output of B bytes
//   line             low or high
//   image            save over an output of B bytes
//   keep, comp       the same; the first prints no image, the second says whether it is the first one's
//
// A call should give the answer (done, sent, held, merged, lost, value C, or refused with D) and the bytes at this place, so long.
// A call that answers done and sends nothing prepares the case, and no verdict is printed on it. Shown after a call: s, the state;
// v, the state, and the verdict in any case.
#[derive(Clone, Copy)]
pub struct Table {
    pub rows: [u8; 45 * ROW_COUNT],
    pub bytes: [u8; 2029],
}

// What calls should send, with place and length. Where document 01 gives no bytes, they follow from its section on packets.
//
//   0000  16  MSI, data 49A1h: byte for byte in document 01 (cases 1, 2, 3 and 12)
//   0010  16  MSI, data 0045h: document 01 gives the data (case 4)
//   0020  16  MSI, data 49A3h: event 7, vector 3 (case 12)
//   0030  20  MSI-X, data 33h (case 7)
//   0044  40  MSI-X, data 32h, then data 39h (case 8)
//   006C  16  Assert_INTA: byte for byte in document 01 (cases 6 and 10)
//   007C  16  Deassert_INTA (case 6)
//   007C  36  Deassert_INTA, then MSI-X, data 31h (case 10)
//   008C  20  MSI-X, data 31h: byte for byte in document 01 (cases 5 and 9)
//   00FA 294  an image: ten bytes of document 01 and 284 zeros (case 11)
//   05C4 294  the image of case 1's card before its event (case 12)
//   06EA  16  MSI, data ABCD49A1h (case 14)
//
// The titles stand before the last image, those of cases 14 and 15 behind it. Configurations: Status, the place of the first capability, the pin, and the bytes 40h to 4Bh. Every other byte is 0.
//
//   00A0  MSI of the 32-bit form without masks, Capable 3
//   00AF  MSI-X with 1 vector, its table at the start of BAR 0, its pending array at 1000h of it
//   00BE  the same with 4 vectors
//   00CD  the same with 10 vectors
//   00DC  4 vectors, the table at 40h of BAR 0, the pending array at the start of BAR 1
//   00EB  no capability, pin 1
//   0104  no capability, no pin
//   06FA  MSI of the 32-bit form without masks, Capable 2, with control bit 9
//   0709  the same with control bit 10 in place of bit 9, and 1234h behind the data register
const BYTES: [u8; 2029] = *b"\x40\x00\x00\x01\x01\x00\x00\x0f\xfe\xe0\x00\x00\xa1\x49\x00\x00\
\x40\x00\x00\x01\x01\x00\x00\x0f\xfe\xe0\x00\x00\x45\x00\x00\x00\
\x40\x00\x00\x01\x01\x00\x00\x0f\xfe\xe0\x00\x00\xa3\x49\x00\x00\
\x60\x00\x00\x01\x01\x00\x00\x0f\x00\x00\x00\x01\xfe\xe0\x10\x00\x33\x00\x00\x00\
\x60\x00\x00\x01\x01\x00\x00\x0f\x00\x00\x00\x01\xfe\xe0\x10\x00\x32\x00\x00\x00\
\x60\x00\x00\x01\x01\x00\x00\x0f\x00\x00\x00\x01\xfe\xe0\x10\x00\x39\x00\x00\x00\
\x34\x00\x00\x00\x01\x00\x00\x20\x00\x00\x00\x00\x00\x00\x00\x00\
\x34\x00\x00\x00\x01\x00\x00\x24\x00\x00\x00\x00\x00\x00\x00\x00\
\x60\x00\x00\x01\x01\x00\x00\x0f\x00\x00\x00\x01\xfe\xe0\x10\x00\x31\x00\x00\x00\
\x10\x40\x01\x05\x00\x06\x00\x00\x00\x00\x00\x00\x00\x00\x00\
\x10\x40\x01\x11\x00\x00\x00\x00\x00\x00\x00\x00\x10\x00\x00\
\x10\x40\x01\x11\x00\x03\x00\x00\x00\x00\x00\x00\x10\x00\x00\
\x10\x40\x01\x11\x00\x09\x00\x00\x00\x00\x00\x00\x10\x00\x00\
\x10\x40\x01\x11\x00\x03\x00\x40\x00\x00\x00\x01\x00\x00\x00\
\x00\x00\x01\x00\x00\x00\x00\x00\x00\x00\x00\x00\x00\x00\x00\
\x49\x52\x51\x01\x00\x00\x01\x00\x00\x01\
\0\0\0\0\0\0\0\0\0\0\0\0\0\0\0\0\0\0\0\0\0\0\0\0\0\0\0\0\0\0\0\0\0\0\0\0\0\0\0\0\0\0\0\0\0\0\0\0\
\0\0\0\0\0\0\0\0\0\0\0\0\0\0\0\0\0\0\0\0\0\0\0\0\0\0\0\0\0\0\0\0\0\0\0\0\0\0\0\0\0\0\0\0\0\0\0\0\
\0\0\0\0\0\0\0\0\0\0\0\0\0\0\0\0\0\0\0\0\0\0\0\0\0\0\0\0\0\0\0\0\0\0\0\0\0\0\0\0\0\0\0\0\0\0\0\0\
\0\0\0\0\0\0\0\0\0\0\0\0\0\0\0\0\0\0\0\0\0\0\0\0\0\0\0\0\0\0\0\0\0\0\0\0\0\0\0\0\0\0\0\0\0\0\0\0\
\0\0\0\0\0\0\0\0\0\0\0\0\0\0\0\0\0\0\0\0\0\0\0\0\0\0\0\0\0\0\0\0\0\0\0\0\0\0\0\0\0\0\0\0\0\0\0\0\
\0\0\0\0\0\0\0\0\0\0\0\0\0\0\0\0\0\0\0\0\0\0\0\0\0\0\0\0\0\0\0\0\0\0\0\0\0\0\0\0\0\0\0\0\
Case 1: MSI, address FEE00000h, data 49A0h, Enable 2, Capable 3, event 1\n\
Case 2: the same, data 49A3h\n\
Case 3: as case 1, event 5 with E = 8: vector 1\n\
Case 4: MSI, data 0040h, granted 8, vector 5: data 0045h\n\
Case 5: MSI-X, entry FEE01000h, upper address 1, data 31h\n\
Case 6: pin 1, line high: code 20h; line low: code 24h\n\
Case 7: MSI-X, vector 3 masked: event 3 held, again merged; unmask sends one packet\n\
Case 8: vectors 9 and 2 waiting, Function Mask cleared, masks 0: packets for 2, then 9\n\
Case 9: bus mastering off, open otherwise: held; setting Command bit 2 sends it\n\
Case 10: wire active, MSI-X switched on with one waiting open vector: Deassert, then message\n\
Case 11: all-zero configuration, E = 1, sizes 0, fresh: the image\n\
Case 12: event E - 1 accepted, E refused with 2\n\
Case 13: table ending exactly at the BAR's size accepted; 8 bytes less, 14\n\
Case 12, continued: output of 15 bytes in case 1: 6, state unchanged; 16: sent\n\
\x49\x52\x51\x01\0\0\x04\0\0\x01\
\0\0\0\0\0\0\0\0\0\0\0\0\0\0\0\0\0\0\0\0\0\0\0\0\0\0\0\0\
\0\0\0\0\x04\0\x10\0\0\0\0\0\0\0\0\0\0\0\0\0\0\0\0\0\0\0\0\0\0\0\0\0\0\0\0\0\0\0\0\0\0\0\0\0\0\0\0\0\
\0\0\0\0\x40\0\0\0\0\0\0\0\0\x01\0\0\x05\0\x27\0\0\0\xe0\xfe\xa0\x49\0\0\0\0\0\0\0\0\0\0\0\0\0\0\0\0\0\0\0\0\0\0\
\0\0\0\0\0\0\0\0\0\0\0\0\0\0\0\0\0\0\0\0\0\0\0\0\0\0\0\0\0\0\0\0\0\0\0\0\0\0\0\0\0\0\0\0\0\0\0\0\
\0\0\0\0\0\0\0\0\0\0\0\0\0\0\0\0\0\0\0\0\0\0\0\0\0\0\0\0\0\0\0\0\0\0\0\0\0\0\0\0\0\0\0\0\0\0\0\0\
\0\0\0\0\0\0\0\0\0\0\0\0\0\0\0\0\0\0\0\0\0\0\0\0\0\0\0\0\0\0\0\0\0\0\0\0\0\0\0\0\0\0\0\0\0\0\0\0\
\0\0\0\0\0\0\0\0\0\0\0\0\0\0\0\0\
\x40\x00\x00\x01\x01\x00\x00\x0f\xfe\xe0\x00\x00\xa1\x49\xcd\xab\
\x10\x40\x01\x05\x00\x04\x02\x00\x00\x00\x00\x00\x00\x00\x00\
\x10\x40\x01\x05\x00\x04\x04\x00\x00\x00\x00\x00\x00\x34\x12\
Case 14: MSI with bits 9 and 10, data ABCD49A3h, Enable 2, event 1: all 32 bits; bit 10 cleared: upper half 0\n\
Case 15: bit 10 and an upper half 1234h without bit 9: neither can be written, the message has 0 there\n";

const ROWS: [u8; 45 * ROW_COUNT] = *b"01 new   ---- 000 -------- ---- -- 0220 073 -\
01 start 0000 004 00000000 done -- 00A0 --- -\
01 write 0004 002 00000004 done -- ---- --- -\
01 write 0044 004 FEE00000 done -- ---- --- -\
01 write 0048 002 000049A0 done -- ---- --- -\
01 write 0042 002 00000021 done -- ---- --- -\
01 event 0001 040 -------- sent -- 0000 016 s\
02 new   ---- 000 -------- ---- -- 0269 029 -\
02 start 0000 004 00000000 done -- 00A0 --- -\
02 write 0004 002 00000004 done -- ---- --- -\
02 write 0044 004 FEE00000 done -- ---- --- -\
02 write 0048 002 000049A3 done -- ---- --- -\
02 write 0042 002 00000021 done -- ---- --- -\
02 event 0001 040 -------- sent -- 0000 016 s\
03 new   ---- 000 -------- ---- -- 0286 048 -\
03 start 0000 008 00000000 done -- 00A0 --- -\
03 write 0004 002 00000004 done -- ---- --- -\
03 write 0044 004 FEE00000 done -- ---- --- -\
03 write 0048 002 000049A0 done -- ---- --- -\
03 write 0042 002 00000021 done -- ---- --- -\
03 event 0005 040 -------- sent -- 0000 016 s\
04 new   ---- 000 -------- ---- -- 02B6 057 -\
04 start 0000 008 00000000 done -- 00A0 --- -\
04 write 0004 002 00000004 done -- ---- --- -\
04 write 0044 004 FEE00000 done -- ---- --- -\
04 write 0048 002 00000040 done -- ---- --- -\
04 write 0042 002 00000031 done -- ---- --- -\
04 event 0005 040 -------- sent -- 0010 016 s\
05 new   ---- 001 -------- ---- -- 02EF 058 -\
05 start 0000 001 00002000 done -- 00AF --- -\
05 write 0004 002 00000006 done -- ---- --- -\
05 Write 0000 004 FEE01000 done -- ---- --- -\
05 Write 0004 004 00000001 done -- ---- --- -\
05 Write 0008 004 00000031 done -- ---- --- -\
05 Write 000C 004 00000000 done -- ---- --- -\
05 write 0042 002 00008000 done -- ---- --- -\
05 event 0000 040 -------- sent -- 008C 020 s\
06 new   ---- 000 -------- ---- -- 0329 055 -\
06 start 0000 001 00000000 done -- 00EB --- -\
06 write 0004 002 00000004 done -- ---- --- -\
06 line  ---- 001 -------- done -- 006C 016 s\
06 read  0006 002 00000008 val  -- ---- --- -\
06 line  ---- 000 -------- done -- 007C 016 s\
07 new   ---- 004 -------- ---- -- 0360 084 -\
07 start 0000 004 00002000 done -- 00BE --- -\
07 write 0004 002 00000006 done -- ---- --- -\
07 Write 0030 004 FEE01000 done -- ---- --- -\
07 Write 0034 004 00000001 done -- ---- --- -\
07 Write 0038 004 00000033 done -- ---- --- -\
07 write 0042 002 00008000 done -- ---- --- -\
07 event 0003 040 -------- held -- ---- --- -\
07 event 0003 040 -------- merg -- ---- --- -\
07 Read  1000 008 00000008 val  -- ---- --- -\
07 Write 003C 004 00000000 done -- 0030 020 -\
07 Read  1000 008 00000000 val  -- ---- --- s\
08 new   ---- 010 -------- ---- -- 03B4 087 -\
08 start 0000 010 00002000 done -- 00CD --- -\
08 write 0004 002 00000006 done -- ---- --- -\
08 Write 0020 004 FEE01000 done -- ---- --- -\
08 Write 0024 004 00000001 done -- ---- --- -\
08 Write 0028 004 00000032 done -- ---- --- -\
08 Write 0090 004 FEE01000 done -- ---- --- -\
08 Write 0094 004 00000001 done -- ---- --- -\
08 Write 0098 004 00000039 done -- ---- --- -\
08 Write 002C 004 00000000 done -- ---- --- -\
08 Write 009C 004 00000000 done -- ---- --- -\
08 write 0042 002 0000C000 done -- ---- --- -\
08 event 0009 040 -------- held -- ---- --- -\
08 event 0002 040 -------- held -- ---- --- s\
08 write 0042 002 00008000 done -- 0044 040 s\
09 new   ---- 001 -------- ---- -- 040B 080 -\
09 start 0000 001 00002000 done -- 00AF --- -\
09 write 0004 002 00000002 done -- ---- --- -\
09 Write 0000 004 FEE01000 done -- ---- --- -\
09 Write 0004 004 00000001 done -- ---- --- -\
09 Write 0008 004 00000031 done -- ---- --- -\
09 Write 000C 004 00000000 done -- ---- --- -\
09 write 0042 002 00008000 done -- ---- --- -\
09 event 0000 040 -------- held -- ---- --- s\
09 write 0004 002 00000006 done -- 008C 020 s\
10 new   ---- 001 -------- ---- -- 045B 093 -\
10 start 0000 001 00002000 done -- 00AF --- -\
10 write 0004 002 00000006 done -- ---- --- -\
10 Write 0000 004 FEE01000 done -- ---- --- -\
10 Write 0004 004 00000001 done -- ---- --- -\
10 Write 0008 004 00000031 done -- ---- --- -\
10 Write 000C 004 00000000 done -- ---- --- -\
10 write 0042 002 0000C000 done -- ---- --- -\
10 event 0000 040 -------- held -- ---- --- -\
10 write 0042 002 00000000 done -- ---- --- -\
10 line  ---- 001 -------- done -- 006C 016 s\
10 write 0042 002 00008000 done -- 007C 036 s\
11 new   ---- 000 -------- ---- -- 04B8 066 -\
11 start 0000 001 00000000 done -- 0104 --- -\
11 image ---- 300 -------- done -- 00FA 294 s\
12 new   ---- 000 -------- ---- -- 04FA 048 -\
12 start 0000 008 00000000 done -- 00A0 --- -\
12 write 0004 002 00000004 done -- ---- --- -\
12 write 0044 004 FEE00000 done -- ---- --- -\
12 write 0048 002 000049A0 done -- ---- --- -\
12 write 0042 002 00000021 done -- ---- --- -\
12 event 0007 040 -------- sent -- 0020 016 -\
12 event 0008 040 -------- ref  02 ---- --- s\
12 new   ---- 000 -------- ---- -- 0575 079 -\
12 start 0000 004 00000000 done -- 00A0 --- -\
12 write 0004 002 00000004 done -- ---- --- -\
12 write 0044 004 FEE00000 done -- ---- --- -\
12 write 0048 002 000049A0 done -- ---- --- -\
12 write 0042 002 00000021 done -- ---- --- -\
12 keep  ---- 294 -------- done -- 05C4 294 -\
12 event 0001 015 -------- ref  06 ---- --- -\
12 comp  ---- 294 -------- done -- 05C4 294 -\
12 event 0001 016 -------- sent -- 0000 016 s\
13 new   ---- 004 -------- ---- -- 052A 075 -\
13 start 0008 004 00000080 done -- 00DC --- v\
13 new   ---- 004 -------- ---- -- ---- --- -\
13 start 0008 004 00000078 ref  14 00DC --- -\
14 new   ---- 000 -------- ---- -- 0718 110 -\
14 start 0000 004 00000000 done -- 06FA --- -\
14 write 0004 002 00000004 done -- ---- --- -\
14 write 0044 004 FEE00000 done -- ---- --- -\
14 write 0048 004 ABCD49A3 done -- ---- --- -\
14 write 0042 002 00000421 done -- ---- --- -\
14 event 0001 040 -------- sent -- 06EA 016 -\
14 write 0042 002 00000021 done -- ---- --- -\
14 event 0001 040 -------- sent -- 0000 016 s\
15 new   ---- 000 -------- ---- -- 0786 103 -\
15 start 0000 004 00000000 done -- 0709 --- -\
15 write 0004 002 00000004 done -- ---- --- -\
15 write 0044 004 FEE00000 done -- ---- --- -\
15 write 0048 004 ABCD49A3 done -- ---- --- -\
15 write 0042 002 00000421 done -- ---- --- -\
15 read  0048 004 123449A3 val  -- ---- --- -\
15 event 0001 040 -------- sent -- 0000 016 -\
15 write 0042 002 00000021 done -- ---- --- -\
15 read  0042 002 00000425 val  -- ---- --- s";

// The table. Its rows are the model's cases.
pub fn bench() -> Table
    ensures { Plays result }
{
    let rows = ROWS;
    let bytes = BYTES;
    Table { rows, bytes }
}
