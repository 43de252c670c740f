// The rows of both profiles as numbers, laid out as crates/rows_places/specs/Numbers.antt says. A const table is made anew wherever it is used: make it once, and lend it.
#![tactic(auto)]

ghost use Rattle.std.specs.Prelude.{◌≡◌};
ghost use Rattle.rows_profile.specs.Profile.{entries_of, all_places};

use paper::Profile;
use rows_places::{Places, Rows};

// For each entry of the first profile: its row and the row that it is under; its name's number; its longest length; its places from and to.
const ROWS: Rows = [
    [1, 0, 1, 0, 0, 1], // 1 Document
    [2, 0, 2, 0, 1, 3], // 2 CstmrCdtTrfInitn
    [3, 0, 3, 0, 3, 8], // 3 GrpHdr
    [4, 0, 4, 35, 0, 0], // 4 MsgId
    [5, 0, 5, 19, 0, 0], // 5 CreDtTm
    [6, 0, 6, 15, 0, 0], // 6 NbOfTxs
    [7, 0, 7, 18, 0, 0], // 7 CtrlSum
    [8, 0, 8, 0, 8, 9], // 8 InitgPty
    [9, 0, 9, 70, 0, 0], // 9 Nm
    [10, 0, 10, 0, 9, 22], // 10 PmtInf
    [11, 0, 11, 35, 0, 0], // 11 PmtInfId
    [12, 0, 12, 3, 0, 0], // 12 PmtMtd
    [13, 0, 13, 5, 0, 0], // 13 BtchBookg
    [14, 0, 6, 15, 0, 0], // 14 NbOfTxs
    [15, 0, 7, 18, 0, 0], // 15 CtrlSum
    [16, 0, 16, 0, 22, 25], // 16 PmtTpInf
    [17, 0, 17, 4, 0, 0], // 17 InstrPrty
    [18, 0, 18, 0, 25, 26], // 18 SvcLvl
    [19, 0, 19, 4, 0, 0], // 19 Cd
    [20, 0, 20, 0, 26, 27], // 20 CtgyPurp
    [21, 0, 19, 4, 0, 0], // 21 Cd
    [22, 0, 22, 0, 27, 28], // 22 ReqdExctnDt
    [23, 0, 23, 10, 0, 0], // 23 Dt
    [24, 0, 24, 0, 28, 29], // 24 Dbtr
    [25, 0, 9, 70, 0, 0], // 25 Nm
    [26, 0, 26, 0, 29, 30], // 26 DbtrAcct
    [27, 0, 27, 0, 30, 31], // 27 Id
    [28, 0, 28, 34, 0, 0], // 28 IBAN
    [29, 0, 29, 0, 31, 32], // 29 DbtrAgt
    [30, 29, 30, 0, 32, 33], // 30 FinInstnId
    [31, 0, 31, 11, 0, 0], // 31 BICFI
    [32, 0, 32, 0, 33, 34], // 32 Othr
    [33, 0, 27, 35, 0, 0], // 33 Id
    [34, 0, 34, 0, 34, 35], // 34 UltmtDbtr
    [35, 0, 9, 70, 0, 0], // 35 Nm
    [36, 0, 36, 4, 0, 0], // 36 ChrgBr
    [37, 0, 37, 0, 35, 46], // 37 CdtTrfTxInf
    [38, 0, 38, 0, 46, 48], // 38 PmtId
    [39, 0, 39, 35, 0, 0], // 39 InstrId
    [40, 0, 40, 35, 0, 0], // 40 EndToEndId
    [41, 0, 41, 0, 48, 49], // 41 Amt
    [42, 0, 42, 18, 0, 0], // 42 InstdAmt
    [43, 0, 43, 0, 49, 50], // 43 CdtrAgt
    [30, 43, 30, 0, 50, 51], // 30 FinInstnId
    [44, 0, 44, 0, 51, 52], // 44 Cdtr
    [45, 0, 45, 0, 52, 53], // 45 CdtrAcct
    [46, 0, 46, 0, 53, 54], // 46 UltmtCdtr
    [47, 0, 47, 0, 54, 55], // 47 Purp
    [48, 0, 48, 0, 55, 56], // 48 RmtInf
    [49, 0, 49, 140, 0, 0], // 49 Ustrd
    [50, 0, 50, 0, 56, 57], // 50 Strd
    [51, 0, 51, 0, 57, 59], // 51 CdtrRefInf
    [52, 0, 52, 0, 59, 61], // 52 Tp
    [53, 0, 53, 0, 61, 62], // 53 CdOrPrtry
    [54, 0, 54, 35, 0, 0], // 54 Issr
    [55, 0, 55, 35, 0, 0], // 55 Ref
    [0, 0, 0, 0, 0, 0], // no row: the instant profile has three more
    [0, 0, 0, 0, 0, 0],
    [0, 0, 0, 0, 0, 0],
];

// For each place of either profile: its kind (0 one, 1 opt, 2 plus, 3 either), and the two entries that may take it.
const PLACES: Places = [
    [0, 1, 1], // Document: one CstmrCdtTrfInitn
    [0, 2, 2], // CstmrCdtTrfInitn: one GrpHdr
    [2, 9, 9], // CstmrCdtTrfInitn: plus PmtInf
    [0, 3, 3], // GrpHdr: one MsgId
    [0, 4, 4], // GrpHdr: one CreDtTm
    [0, 5, 5], // GrpHdr: one NbOfTxs
    [0, 6, 6], // GrpHdr: one CtrlSum
    [0, 7, 7], // GrpHdr: one InitgPty
    [0, 8, 8], // InitgPty: one Nm
    [0, 10, 10], // PmtInf: one PmtInfId
    [0, 11, 11], // PmtInf: one PmtMtd
    [1, 12, 12], // PmtInf: opt BtchBookg
    [0, 13, 13], // PmtInf: one NbOfTxs
    [0, 14, 14], // PmtInf: one CtrlSum
    [1, 15, 15], // PmtInf: opt PmtTpInf
    [0, 21, 21], // PmtInf: one ReqdExctnDt
    [0, 23, 23], // PmtInf: one Dbtr
    [0, 25, 25], // PmtInf: one DbtrAcct
    [0, 28, 28], // PmtInf: one DbtrAgt
    [1, 33, 33], // PmtInf: opt UltmtDbtr
    [1, 35, 35], // PmtInf: opt ChrgBr
    [2, 36, 36], // PmtInf: plus CdtTrfTxInf
    [1, 16, 16], // PmtTpInf: opt InstrPrty
    [0, 17, 17], // PmtTpInf: one SvcLvl
    [1, 19, 19], // PmtTpInf: opt CtgyPurp
    [0, 18, 18], // SvcLvl: one Cd
    [0, 20, 20], // CtgyPurp: one Cd
    [0, 22, 22], // ReqdExctnDt: one Dt
    [0, 24, 24], // Dbtr: one Nm
    [0, 26, 26], // DbtrAcct: one Id
    [0, 27, 27], // Id: one IBAN
    [0, 29, 29], // DbtrAgt: one FinInstnId
    [3, 30, 31], // FinInstnId: either BICFI / Othr
    [0, 32, 32], // Othr: one Id
    [0, 34, 34], // UltmtDbtr: one Nm
    [0, 37, 37], // CdtTrfTxInf: one PmtId
    [1, 15, 15], // CdtTrfTxInf: opt PmtTpInf
    [0, 40, 40], // CdtTrfTxInf: one Amt
    [1, 35, 35], // CdtTrfTxInf: opt ChrgBr
    [1, 33, 33], // CdtTrfTxInf: opt UltmtDbtr
    [1, 42, 42], // CdtTrfTxInf: opt CdtrAgt
    [0, 44, 44], // CdtTrfTxInf: one Cdtr
    [0, 45, 45], // CdtTrfTxInf: one CdtrAcct
    [1, 46, 46], // CdtTrfTxInf: opt UltmtCdtr
    [1, 47, 47], // CdtTrfTxInf: opt Purp
    [1, 48, 48], // CdtTrfTxInf: opt RmtInf
    [1, 38, 38], // PmtId: opt InstrId
    [0, 39, 39], // PmtId: one EndToEndId
    [0, 41, 41], // Amt: one InstdAmt
    [0, 43, 43], // CdtrAgt: one FinInstnId
    [0, 30, 30], // FinInstnId: one BICFI
    [0, 24, 24], // Cdtr: one Nm
    [0, 26, 26], // CdtrAcct: one Id
    [0, 34, 34], // UltmtCdtr: one Nm
    [0, 20, 20], // Purp: one Cd
    [3, 49, 50], // RmtInf: either Ustrd / Strd
    [0, 51, 51], // Strd: one CdtrRefInf
    [0, 52, 52], // CdtrRefInf: one Tp
    [0, 55, 55], // CdtrRefInf: one Ref
    [0, 53, 53], // Tp: one CdOrPrtry
    [1, 54, 54], // Tp: opt Issr
    [0, 18, 18], // CdOrPrtry: one Cd
    [1, 16, 16], // PmtTpInf, instant: opt InstrPrty
    [0, 17, 17], // PmtTpInf, instant: one SvcLvl
    [0, 56, 56], // PmtTpInf, instant: one LclInstrm
    [1, 19, 19], // PmtTpInf, instant: opt CtgyPurp
    [3, 22, 58], // ReqdExctnDt, instant: either Dt / DtTm
    [0, 57, 57], // LclInstrm: one Cd
];

// The entries of a profile: the instant one has five lines of its own.
pub fn rows(profile: Profile) -> Rows
    ensures { result ≡ entries_of profile.instant }
{
    if profile.instant {
        let mut rows = ROWS;
        rows[15] = [16, 0, 16, 0, 62, 66]; // 16 PmtTpInf
        rows[21] = [22, 0, 22, 0, 66, 67]; // 22 ReqdExctnDt
        rows[56] = [56, 0, 56, 0, 67, 68]; // 56 LclInstrm
        rows[57] = [57, 0, 19, 35, 0, 0]; // 57 Cd
        rows[58] = [58, 0, 58, 25, 0, 0]; // 58 DtTm
        return rows;
    }
    ROWS
}

pub fn places() -> Places
    ensures { result ≡ all_places }
{
    PLACES
}
