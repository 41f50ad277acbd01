// The codes and the fields that replies name, each with its text.

// A code: its text before and after the field's name, whether it names a field, whether the field's contents follow the name, K or E, bare
// or full.
#[derive(Clone, Copy, Debug, PartialEq, Eq)]
pub struct CodeRow {
    pub code: u32,
    pub before: &'static [u8],
    pub names: bool,
    pub shows: bool,
    pub after: &'static [u8],
    pub accepted: bool,
    pub bare: bool,
}

// E, in the bare form: so is a number that is no code.
pub const BARE: CodeRow = CodeRow {
    code: 0,
    before: b"",
    names: false,
    shows: false,
    after: b"",
    accepted: false,
    bare: true,
};

// E, in the bare form, with the field's name and its contents.
const FAULTY: CodeRow = CodeRow {
    names: true,
    shows: true,
    ..BARE
};

// E, with the whole reply.
const REFUSED: CodeRow = CodeRow {
    bare: false,
    ..BARE
};

// K, with the whole reply.
const TAKEN: CodeRow = CodeRow {
    accepted: true,
    ..REFUSED
};

pub const CODES: [CodeRow; 28] = [
    CodeRow {
        code: 1001,
        before: b"HYV\xC4KSYTTY",
        ..TAKEN
    },
    CodeRow {
        code: 1002,
        before: b"HYV\xC4KSYTTY, AVAINVAIHTO",
        ..TAKEN
    },
    CodeRow {
        code: 1003,
        before: b"HYV\xC4KSYTTY, AVAINVAIHTO HYV\xC4KSYTTY",
        ..TAKEN
    },
    CodeRow {
        code: 1004,
        before: b"HYV\xC4KSYTTY, AVAINVAIHTO HYL\xC4TTY",
        ..TAKEN
    },
    CodeRow {
        code: 1005,
        before: b"HYV\xC4KSYTTY, AVAINVAIHTO LIIAN USEIN",
        ..TAKEN
    },
    CodeRow {
        code: 1010,
        before: b"MUOTOVIRHE KENT\xC4SS\xC4 ",
        ..FAULTY
    },
    CodeRow {
        code: 1011,
        before: b"ARVOVIRHE KENT\xC4SS\xC4 ",
        ..FAULTY
    },
    CodeRow {
        code: 1012,
        before: b"VERSIO ON LIIAN VANHA",
        ..BARE
    },
    CodeRow {
        code: 1013,
        before: b"SIIRTOAVAIN EI OLE VOIMASSA",
        ..REFUSED
    },
    CodeRow {
        code: 1014,
        before: b"K\xC4YTT\xD6AVAIN EI OLE VOIMASSA",
        ..REFUSED
    },
    CodeRow {
        code: 1015,
        before: b"P\xC4IV\xC4YS ON LIIAN VANHA",
        ..REFUSED
    },
    CodeRow {
        code: 1016,
        before: b"P\xC4IV\xC4YS ON ETEENP\xC4IN",
        ..REFUSED
    },
    CodeRow {
        code: 1017,
        before: b"KERTA-AVAIN ON JO K\xC4YTETTY",
        ..REFUSED
    },
    CodeRow {
        code: 1018,
        before: b"AIKALEIMA ON JO K\xC4YTETTY",
        ..REFUSED
    },
    CodeRow {
        code: 1019,
        before: b"TIIVISTE EI T\xC4SM\xC4\xC4",
        ..REFUSED
    },
    CodeRow {
        code: 1020,
        before: b"TARKISTE EI T\xC4SM\xC4\xC4",
        ..REFUSED
    },
    CodeRow {
        code: 1021,
        before: b"VASTAANOTTAJA ON V\xC4\xC4RIN",
        ..BARE
    },
    CodeRow {
        code: 1023,
        before: b"SUO-SANOMA PUUTTUU",
        ..BARE
    },
    CodeRow {
        code: 1024,
        before: b"VAR-SANOMA PUUTTUU",
        ..BARE
    },
    CodeRow {
        code: 1025,
        before: b"SUOJAUSOIKEUTTA EI OLE",
        ..REFUSED
    },
    CodeRow {
        code: 1026,
        before: b"KENTT\xC4 ",
        names: true,
        after: b": SUO-SANOMA <> VAR-SANOMA",
        ..REFUSED
    },
    CodeRow {
        code: 1031,
        before: b"KERTA-AVAIMEN PARITEETTI EI T\xC4SM\xC4\xC4",
        ..REFUSED
    },
    CodeRow {
        code: 1032,
        before: b"TURVASANOMA LIIAN LYHYT",
        ..BARE
    },
    CodeRow {
        code: 1033,
        before: b"ASIAKASTUNNUS VIRHEELLINEN",
        ..BARE
    },
    CodeRow {
        code: 1034,
        before: b"J\xC4RJESTELM\xC4VIRHE",
        ..REFUSED
    },
    CodeRow {
        code: 1035,
        before: b"PATUN K\xC4YT\xD6ST\xC4 EI OLE SOVITTU",
        ..BARE
    },
    CodeRow {
        code: 1036,
        before: b"HYV\xC4KSYTTY, VAIHTOJAKSO KATKAISTU",
        ..TAKEN
    },
    CodeRow {
        code: 1037,
        before: b"HYV\xC4KSYTTY, VAIHTOJAKSON KATKAISU HYL\xC4TTY",
        ..TAKEN
    },
];

// The fields by their numbers, each with its name, and the groups of fields 8, 9 and 12.
pub const FIELDS: [(u32, &'static [u8]); 28] = [
    (10, b"SANOMATUNNUS"),
    (20, b"SANOMAPITUUS"),
    (30, b"VERSIO"),
    (40, b"ONNISTUMISKOODI"),
    (50, b"ILMOITUSKOODI"),
    (60, b"OHJELMISTO"),
    (70, b"MENETELM\xC4"),
    (81, b"VAST.TUNNUS"),
    (82, b"VAST.TARKENNE"),
    (91, b"L\xC4H.TUNNUS"),
    (92, b"L\xC4H.TARKENNE"),
    (100, b"SIIRTOAVAINNO"),
    (110, b"K\xC4YTT\xD6AVAINNO"),
    (121, b"P\xC4IV\xC4YS"),
    (122, b"KELLONAIKA"),
    (123, b"LEIMANUMERO"),
    (130, b"SUOJAUSALUE"),
    (140, b"VARALLA"),
    (150, b"KERTA-AVAIN"),
    (160, b"TIIVISTE"),
    (170, b"TARKISTE"),
    (180, b"AVAINVAIHTO"),
    (190, b"UUSIAVAIN"),
    (200, b"ILMOITUS"),
    (210, b"KUITTAUS"),
    (80, b"VASTAANOTTAJA"),
    (90, b"L\xC4HETT\xC4J\xC4"),
    (120, b"AIKALEIMA"),
];
