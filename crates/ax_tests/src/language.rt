//! Whole runs of programs with blocks, lists, maps and all signs of expressions.
use crate::expect::expect_table;
use std::test::Fail;

// A line of this table has expressions and what they are in the row `r a 3 7 -2`.
const EXPRESSIONS: &str = "\
v1 * v2 + 1 , v1 + v2 * 3 , ( v1 + v2 ) * 3|o a -13 1 15;|
8 - 3 - 2 , 8 - ( 3 - 2 ) , 8 / 4 / 2 , 100 / 7 * 7 , 100 % 7 * 7 , 7 * 100 % 9|o a 3 7 1 98 14 7;|
-7 / 2 , -7 % 2 , v1 / v2 , v1 % v2 , -7 / -2 , -7 % -2 , 0 / 5 , 0 % 5|o a -3 -1 -3 1 3 -1 0 0;|
v1 / 0 , v1 % 0 , 0 / 0 , 0 % 0 , -9223372036854775808 / 0|o a 0 0 0 0 0;|
-9223372036854775808 / -1 , -9223372036854775808 % -1 , 9223372036854775807 / -1|o a -9223372036854775808 0 -9223372036854775807;|
9223372036854775807 + 1 , -9223372036854775808 - 1 , 9223372036854775807 * 2 , -9223372036854775808 * -1|o a -9223372036854775808 9223372036854775807 -2 -9223372036854775808;|
1 < 2 , 2 < 2 , 2 <= 2 , 3 <= 2 , 2 == 2 , 2 == 3 , 2 != 3 , 2 != 2|o a 1 0 1 0 1 0 1 0;|
2 >= 2 , 1 >= 2 , 2 > 1 , 2 > 2 , -1 < 0 , -9223372036854775808 < 9223372036854775807|o a 1 0 1 0 1 1;|
3 > 2 > 1 , 3 > 2 == 1 , 1 + 1 == 2 , 1 + ( 1 == 2 ) , 2 * ( 3 > 1 )|o a 0 1 1 1 2;|
( ( ( v1 ) ) ) - ( -2 ) , time * 2 , wm , wm * 2|o a 9 6 -9223372036854775808 0;|";

// A line of these tables has an input, what is written, and the fault of a program (`p`) with line and kind.

const NAMES: &str = "\
input 1;on row;let a = v1;let b = a + 1;let a = b * 2;emit a , b;end;%%;r a 1 5;|o a 12 6;|
input 1;on row;if v1;let a = v1;end;emit a;end;%%;r a 1 5;r a 2 0;|o a 5;o a 0;|
input 1;on row;if v1 > 0;emit 1;else;if v1;emit 2;else;emit 3;end;end;end;%%;r a 1 5;r a 2 -5;r a 3 0;|o a 1;o a 2;o a 3;|
input 1;on row;if v1;else;emit 1;end;if v1;end;emit 2;end;%%;r a 1 5;r a 2 0;|o a 2;o a 1;o a 2;|
input 1;on row;let a = v1;timer v1;end;on timer;if 0;let a = 7;end;emit time , a;end;%%;r a 1 5;w 5;|o a 5 0;w 5;|";

const LISTS: &str = "\
input 1;state l list;on row;add l v1;let s = 0;each x in l;let s = s + x;end;emit s , x;end;%%;r a 1 5;r a 2 7;r b 3 1;|o a 5 5;o a 12 7;o b 1 1;|
input 0;state l list;on row;each x in l;emit x;end;end;%%;r a 1;b 1;|s 1 -9223372036854775808;e 1 0;|
input 0;state l list;on row;add l 1;each x in l;add l x + 1;end;let n = 0;each x in l;let n = n + 1;end;emit n , x;end;%%;r a 1;r a 2;|o a 2 2;o a 6 2;|
input 0;state l list;on row;put l 3 , 1 , 2;each x in l;clear l;emit x;end;each x in l;emit 9;end;end;%%;r a 1;|o a 3;o a 1;o a 2;|
input 1;state l list;on row;add l 9;put l v1;add l 2;end;%%;r a 1 5;b 1;r a 2 6;b 2;|s 1 -9223372036854775808;l a l 5;l a l 2;e 1 2;s 2 -9223372036854775808;l a l 6;l a l 2;e 2 2;|
input 0;state l list;on row;put l 1 , 2;each x in l;each y in l;emit x , y;end;end;end;%%;r a 1;|o a 1 1;o a 1 2;o a 2 1;o a 2 2;|
input 0;state l list;on row;put l 1 , 2;each x in l;each x in l;end;emit x;end;end;%%;r a 1;|o a 2;o a 2;|
input 1;state l list;on row;add l v1;each x in l;if x % 2;timer x;else;untimer x + 1;end;end;end;on timer;add l time;clear l;end;%%;r a 1 5;r a 2 7;b 1;r a 3 4;b 2;w 7;b 3;|s 1 -9223372036854775808;l a l 5;l a l 7;t a 5;t a 7;e 1 4;s 2 -9223372036854775808;l a l 5;l a l 7;l a l 4;t a 7;e 2 4;w 7;s 3 7;e 3 0;|";

const MAPS: &str = "\
input 0;state m map;on row;put m 5 , 1;put m -2 , 3;each k n in m;emit k , n;end;end;%%;r a 1;|o a -2 3;o a 5 1;|
input 2;state m map;on row;old = get m v1 or -1;put m v1 , v2;emit old;end;%%;r a 1 5 7;r a 2 5 8;r b 3 5 9;r a 4 6 1;b 1;|o a -1;o a 7;o b -1;o a -1;s 1 -9223372036854775808;m b m 5 9;m a m 5 8;m a m 6 1;e 1 3;|
input 1;state m map;on row;x = has m v1;y = empty m;put m v1 , 0;z = has m v1;u = empty m;emit x , y , z , u;end;%%;r a 1 5;r a 2 5;r a 3 6;|o a 0 1 1 0;o a 1 0 1 0;o a 0 0 1 0;|
input 1;state m map;on row;put m 1 , 2;remove m v1;x = empty m;remove m v1;emit x;clear m;end;%%;r a 1 1;r a 2 2;b 1;|o a 1;o a 0;s 1 -9223372036854775808;e 1 0;|
input 0;state m map;on row;put m 1 , 10;put m 2 , 20;put m -9223372036854775808 , 0;put m 9223372036854775807 , 0;each k n in m;remove m k;put m k + 1 , n;end;each k n in m;emit k , n;end;end;%%;r a 1;|o a -9223372036854775808 0;o a -9223372036854775807 0;o a 3 20;|
input 0;state m map;on row;put m 1 , 1;each k n in m;each n k in m;end;emit k , n;put m n + 1 , k;end;each k n in m;end;emit k , n;end;%%;r a 1;r a 2;|o a 1 1;o a 2 1;o a 1 2;o a 1 3;o a 4 1;|
input 1;state n value;state l list;state m map;on row;put n v1;add l v1;put m v1 , time;timer v1;end;%%;r a 1 5;r b 2 6;r a 3 -2;b 1;|s 1 -9223372036854775808;c b n 6;l b l 6;m b m 6 2;t b 6;c a n -2;l a l 5;l a l -2;m a m -2 3;m a m 5 1;t a -2;t a 5;e 1 11;|
input 1;state c value;on row;if v1 == 0;clear c;else;put c v1;end;x = get c or -1;emit x;end;%%;r a 1 5;r a 2 0;b 1;|o a 5;o a -1;s 1 -9223372036854775808;e 1 0;|";

const ARMS: &str = "\
input 0;state p value;state q value;on row;both;x = get p or 3;with;y = get q or 4;end;put p y;put q x;emit x , y;end;%%;r a 1;r a 2;|o a 3 4;o a 4 3;|
input 0;state p value;state q value;on row;both;x = get p or 3;with;put p 1;end;put p y;put q x;emit x , y;end;%%;r a 1;r a 2;||p 8 5
input 0;state l list;state m map;on row;both;add l time;let n = 0;each x in l;let n = n + 1;end;with;put m time , 1;let k = 0;each at one in m;let k = k + one;end;end;emit n , k , n == k;end;%%;r a 1;r a 2;r a 2;|o a 1 1 1;o a 2 2 1;o a 3 2 0;|
input 1;state s value;state t value;state u value;on row;both;both;a = get s or 1;put s a * 2;with;b = get t or 1;put t b * 3;end;let d = a + b;with;if v1;c = get u or 1;put u c * 5;else;clear u;end;end;emit d , c;end;%%;r a 1 1;r a 2 1;r a 3 0;r a 4 1;|o a 2 1;o a 5 5;o a 13 0;o a 35 1;|
input 0;state l list;state s value;on row;put l 1 , 2 , 3;let t = 0;each x in l;both;y = get s or 0;put s y + x;with;let t = t + x * x;end;end;emit y , t;end;%%;r a 1;r a 2;|o a 3 14;o a 9 14;|
input 1;state clicks list;state pages map;state last value;on row;add clicks v1;both;n = get pages v1 or 0;put pages v1 , n + 1;with;old = get last or 0;put last time + 500;end;untimer old;timer time + 500;emit 1 , v1;end;on timer;let n = 0;let s = 0;each x in clicks;let n = n + 1;let s = s + x;end;clear clicks;clear pages;clear last;emit 2 , n , s;end;%%;r k74 10 449;r k74 20 449;r k74 30 7;b 1;w 510;w 530;b 2;|o k74 1 449;o k74 1 449;o k74 1 7;s 1 -9223372036854775808;l k74 clicks 449;l k74 clicks 449;l k74 clicks 7;m k74 pages 7 1;m k74 pages 449 2;c k74 last 530;t k74 530;e 1 7;w 510;o k74 2 3 905;w 530;s 2 530;e 2 0;|";

const FAULTS: &str = "\
input 1;state s value;on row;put s v1 * 2 +;end;%%;r a 1 5;||p 4 1
input 1;state s value;on row;put s v1 * ( v2 );end;%%;r a 1 5;||p 4 2
input 1;state s value;state s map;on row;end;%%;r a 1 5;||p 3 3
input 1;state m map;on row;each k k in m;end;end;%%;r a 1 5;||p 4 3
input 1;state m map;on row;add m v1;end;%%;r a 1 5;||p 4 4
input 1;state m map;on row;both;put m 1 , 1;with;x = has m 2;end;emit x;end;%%;r a 1 5;||p 7 5
input 1;state m map;on row;both;put m 1 , 1;with;emit 1;end;end;%%;r a 1 5;||p 7 6
input 1;on row;if v1;emit 1;end;%%;r a 1 5;||p 6 10
input 1;on row;if v1;emit 1;else;end;else;end;%%;r a 1 5;||p 7 1";

// The programs of `examples/`, without their comments.
const EXAMPLES: &str = "\
input 2;state balance value;state moves value;on row;old = get balance or 0;count = get moves or 0;put balance old + v1 - v2;put moves count + 1;emit old + v1 - v2 , count + 1;end;%%;r alice 1 100 0;r bob 2 40 0;r alice 3 0 130;r bob 4 25 15;r alice 5 55 0;|o alice 100 1;o bob 40 1;o alice -30 2;o bob 50 2;o alice 25 3;|
input 1;state reading value;state taken value;on row;last = get reading or v1;then = get taken or time;put reading v1;put taken time;emit v1 - last , time - then;end;%%;r cellar 60 12;r attic 61 25;r cellar 120 13;r attic 125 21;r cellar 240 13;r attic 245 -2;|o cellar 0 0;o attic 0 0;o cellar 1 60;o attic -4 64;o cellar 0 120;o attic -23 120;|
input 1;state views value;state seconds value;on row;n = get views or 0;s = get seconds or 0;put views n + 1;put seconds s + v1;emit n + 1 , s + v1;end;%%;r /home 1000 12;r /about 1003 30;r /home 1010 8;r /home 1025 41;r /about 1040 5;|o /home 1 12;o /about 1 30;o /home 2 20;o /home 3 61;o /about 2 35;|
input 1;state visits map;on row;n = get visits v1 or 0;put visits v1 , n + 1;timer ( time / 60 + 1 ) * 60;end;on timer;let top = 0;let most = 0;let pages = 0;each page count in visits;let pages = pages + 1;if count > most;let top = page;let most = count;end;end;emit top , most , pages;clear visits;end;%%;r shop 3 7;r shop 20 4;r blog 31 1;r shop 44 7;b 1;w 60;r shop 61 4;r blog 70 2;r blog 75 1;r blog 90 2;r shop 119 9;w 120;b 2;|s 1 -9223372036854775808;m shop visits 4 1;m shop visits 7 2;t shop 60;m blog visits 1 1;t blog 60;e 1 5;o blog 1 1 1;o shop 7 2 2;w 60;o blog 2 2 2;o shop 4 1 2;w 120;s 2 120;e 2 0;|
input 1;state readings list;on row;let n = 0;each x in readings;let n = n + 1;end;let i = 0;each x in readings;let i = i + 1;if i == 1;clear readings;end;if i > n - 4;add readings x;end;end;add readings v1;let total = 0;let count = 0;let low = v1;let high = v1;each x in readings;let total = total + x;let count = count + 1;if x < low;let low = x;end;if x > high;let high = x;end;end;emit total / count , low , high;end;%%;r cellar 60 12;r cellar 120 14;r attic 125 30;r cellar 180 13;r cellar 240 40;r cellar 300 11;r cellar 360 12;r attic 365 -5;b 1;r cellar 420 14;|o cellar 12 12 12;o cellar 13 12 14;o attic 30 30 30;o cellar 13 12 14;o cellar 19 12 40;o cellar 18 11 40;o cellar 18 11 40;o attic 12 -5 30;s 1 -9223372036854775808;l cellar readings 14;l cellar readings 13;l cellar readings 40;l cellar readings 11;l cellar readings 12;l attic readings 30;l attic readings -5;e 1 7;o cellar 18 11 40;|
input 1;state balance value;state moves list;on row;both;old = get balance or 0;let now = old + v1;put balance now;with;add moves v1;let total = 0;each amount in moves;let total = total + amount;end;end;emit now , now == total;end;%%;r alice 1 100;r bob 2 40;r alice 3 -130;r bob 4 -15;r alice 5 55;b 1;|o alice 100 1;o bob 40 1;o alice -30 1;o bob 25 1;o alice 25 1;s 1 -9223372036854775808;c bob balance 25;l bob moves 40;l bob moves -15;c alice balance 25;l alice moves 100;l alice moves -130;l alice moves 55;e 1 7;|
input 0;state pages value;state ends value;on row;n = get pages or 0;old = get ends or 0;put pages n + 1;put ends time + 30;untimer old;timer time + 30;end;on timer;n = get pages or 0;emit n , time;put pages 0;end;%%;r ada 10;r bob 12;r ada 25;w 40;r ada 50;w 60;b 1;r bob 70;w 100;b 2;|w 40;o bob 1 42;w 60;s 1 60;c bob pages 0;c bob ends 42;c ada pages 3;c ada ends 80;t ada 80;e 1 5;o ada 3 80;o bob 1 100;w 100;s 2 100;c bob pages 0;c bob ends 100;c ada pages 0;c ada ends 80;e 2 4;|";

#[test]
fn expressions_of_all_signs(rt: HostRuntime) -> Result<(), Fail> {
    let before = b"input 2\non row\nemit ";
    expect_table(&rt, before, EXPRESSIONS, b"\nend\n%%\nr a 3 7 -2\n")
}

#[test]
fn statements_of_all_kinds(rt: HostRuntime) -> Result<(), Fail> {
    for table in [NAMES, LISTS, MAPS, ARMS, FAULTS, EXAMPLES] {
        expect_table(&rt, b"", table, b"")?;
    }
    Ok(())
}
