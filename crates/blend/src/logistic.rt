ghost use Rattle.std.specs.Prelude.{◌≡◌, ◌<◌};
ghost use Rattle.blend.specs.Logistic.{logistic, weight_at};
ghost use Rattle.blend.specs.Machine.{place_of};

use crate::axis::distance;

// The whole numbers nearest to 65536 / (1 + e^(k/20)), for k below 256.
static LOGISTIC: [u16; 256] = [
    32768, 31949, 31131, 30315, 29502, 28693, 27889, 27091, 26300, 25517, 24743, 23977, 23222,
    22478, 21746, 21025, 20318, 19624, 18943, 18277, 17625, 16989, 16367, 15761, 15170, 14595,
    14036, 13492, 12964, 12452, 11955, 11474, 11009, 10558, 10123, 9702, 9296, 8905, 8527, 8163,
    7812, 7475, 7150, 6837, 6537, 6249, 5972, 5706, 5451, 5206, 4971, 4747, 4531, 4325, 4127, 3938,
    3757, 3584, 3418, 3260, 3108, 2963, 2825, 2693, 2567, 2446, 2331, 2221, 2117, 2016, 1921, 1830,
    1743, 1660, 1581, 1506, 1434, 1366, 1300, 1238, 1179, 1122, 1068, 1017, 968, 922, 877, 835,
    795, 757, 720, 685, 652, 621, 591, 562, 535, 509, 484, 461, 439, 417, 397, 378, 360, 342, 326,
    310, 295, 280, 267, 254, 241, 230, 219, 208, 198, 188, 179, 170, 162, 154, 147, 140, 133, 126,
    120, 114, 109, 103, 98, 94, 89, 85, 81, 77, 73, 69, 66, 63, 60, 57, 54, 51, 49, 47, 44, 42, 40,
    38, 36, 34, 33, 31, 30, 28, 27, 26, 24, 23, 22, 21, 20, 19, 18, 17, 16, 15, 15, 14, 13, 13, 12,
    11, 11, 10, 10, 9, 9, 9, 8, 8, 7, 7, 7, 6, 6, 6, 5, 5, 5, 5, 4, 4, 4, 4, 4, 3, 3, 3, 3, 3, 3,
    3, 2, 2, 2, 2, 2, 2, 2, 2, 2, 2, 1, 1, 1, 1, 1, 1, 1, 1, 1, 1, 1, 1, 1, 1, 1, 1, 1, 1, 1, 1, 1,
    1, 0, 0, 0, 0, 0, 0, 0, 0, 0, 0, 0, 0, 0, 0, 0, 0, 0, 0, 0, 0,
];

// The table, by the name that docs/a8.patch lists for callers of this crate: it stays for them.
#[tactic(auto, unfolding(crate::specs::Logistic::logistic))]
pub fn logistic() -> [u16; 256]
    ensures { result ≡ logistic }
{
    LOGISTIC
}

// k, stopped at the last place, from the variations of the row and the column.
pub fn place(row: u16, column: u16) -> u16
    ensures { result ≡ place_of row column }
{
    (distance(row, column) / 16).min(255)
}

pub fn weight(place: u16) -> u16
    requires { place < 256 }
    ensures { result ≡ weight_at place }
{
    LOGISTIC[usize::from(place)]
}
